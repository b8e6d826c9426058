//! Prefixes, and the addresses inside them.

use octets::{Prefix4, Prefix6};
use rows::{RowFault, Said, Words};
use std::alloc::Global;

fn new4(alloc: Global, words: &mut Words<'_>, said: &mut Said) -> Result<(), RowFault> {
    let addr = words.addr4()?;
    match Prefix4::new(addr, words.eight()?) {
        Some(prefix) => said.prefix4(alloc, &prefix),
        None => said.word("none"),
    }
}

fn new6(alloc: Global, words: &mut Words<'_>, said: &mut Said) -> Result<(), RowFault> {
    let addr = words.addr6()?;
    match Prefix6::new(addr, words.eight()?) {
        Some(prefix) => said.prefix6(alloc, &prefix),
        None => said.word("none"),
    }
}

fn has4(words: &mut Words<'_>, said: &mut Said) -> Result<(), RowFault> {
    let prefix = words.prefix4()?;
    said.flag(prefix.has(words.addr4()?))
}

fn has6(words: &mut Words<'_>, said: &mut Said) -> Result<(), RowFault> {
    let prefix = words.prefix6()?;
    said.flag(prefix.has(words.addr6()?))
}

fn begins(words: &mut Words<'_>, said: &mut Said) -> Result<(), RowFault> {
    let prefix = words.prefix6()?;
    said.flag(prefix.begins(&words.prefix6()?))
}

pub fn answer(
    alloc: Global,
    call: &str,
    words: &mut Words<'_>,
    said: &mut Said,
) -> Result<(), RowFault> {
    match call {
        "new4" => new4(alloc, words, said),
        "new6" => new6(alloc, words, said),
        "has4" => has4(words, said),
        "has6" => has6(words, said),
        "begins" => begins(words, said),
        _ => Err(RowFault::NotARow),
    }
}
