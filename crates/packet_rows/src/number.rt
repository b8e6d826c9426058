//! Numbers at a place, bits of an address, and fragment fields.

use octets::{Addr6, bits_of, is_wrong_fragment, quad_at, sixteen_at, word_at};
use rows::{RowFault, Said, Words};
use std::alloc::Global;

fn word(alloc: Global, words: &mut Words<'_>, said: &mut Said) -> Result<(), RowFault> {
    let octets = words.octets(alloc)?;
    let octets = octets.as_slice();
    let at = usize::from(words.sixteen()?);
    if octets.len() < at + 2 {
        return said.word("unmet");
    }
    said.number(u64::from(word_at(octets, at)))
}

fn quad(alloc: Global, words: &mut Words<'_>, said: &mut Said) -> Result<(), RowFault> {
    let octets = words.octets(alloc)?;
    let octets = octets.as_slice();
    let at = usize::from(words.sixteen()?);
    if octets.len() < at + 4 {
        return said.word("unmet");
    }
    said.number(u64::from(quad_at(octets, at)))
}

fn sixteen(alloc: Global, words: &mut Words<'_>, said: &mut Said) -> Result<(), RowFault> {
    let octets = words.octets(alloc)?;
    let octets = octets.as_slice();
    let at = usize::from(words.sixteen()?);
    if octets.len() < at + 16 {
        return said.word("unmet");
    }
    said.addr6(alloc, Addr6(sixteen_at(octets, at)))
}

fn bits(alloc: Global, words: &mut Words<'_>, said: &mut Said) -> Result<(), RowFault> {
    let addr = words.addr6()?;
    let from = words.eight()?;
    let count = words.eight()?;
    if u16::from(from) + u16::from(count) > 128 {
        return said.word("unmet");
    }
    said.addr6(alloc, Addr6(bits_of(addr, from, count)))
}

fn wrong_fragment(words: &mut Words<'_>, said: &mut Said) -> Result<(), RowFault> {
    let offset = words.sixteen()?;
    let more = words.flag()?;
    let len = words.sixteen()?;
    said.flag(is_wrong_fragment(offset, more, usize::from(len)))
}

pub fn answer(
    alloc: Global,
    call: &str,
    words: &mut Words<'_>,
    said: &mut Said,
) -> Result<(), RowFault> {
    match call {
        "word" => word(alloc, words, said),
        "quad" => quad(alloc, words, said),
        "sixteen" => sixteen(alloc, words, said),
        "bits" => bits(alloc, words, said),
        "wrong_fragment" => wrong_fragment(words, said),
        _ => Err(RowFault::NotARow),
    }
}
