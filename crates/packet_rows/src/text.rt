//! Texts of addresses and prefixes: each is read, and written once more.

use octets::{Bytes, read_addr4, read_addr6, read_prefix4, read_prefix6};
use rows::{RowFault, Said, Words};
use std::alloc::Global;

/// The octets of the next word, which is a text. `-` is the text without octets, and `_` stands for a space.
fn text_of(alloc: Global, words: &mut Words<'_>) -> Result<Bytes, RowFault> {
    let word = words.word()?;
    let mut text = Bytes::new(alloc);
    if word == "-" {
        return Ok(text);
    }
    for octet in word.as_bytes() {
        text.push(if *octet == b'_' { b' ' } else { *octet })?;
    }
    Ok(text)
}

fn again(alloc: Global, kind: &str, text: &[u8], said: &mut Said) -> Result<(), RowFault> {
    let written = match kind {
        "addr4" => read_addr4(text).ok().map(|addr| addr.text(alloc)),
        "addr6" => read_addr6(text).ok().map(|addr| addr.text(alloc)),
        "prefix4" => read_prefix4(text).ok().map(|prefix| prefix.text(alloc)),
        "prefix6" => read_prefix6(text).ok().map(|prefix| prefix.text(alloc)),
        _ => return Err(RowFault::NotARow),
    };
    match written {
        Some(written) => said.text(written?.as_slice()),
        None => said.word("none"),
    }
}

pub fn answer(
    alloc: Global,
    call: &str,
    words: &mut Words<'_>,
    said: &mut Said,
) -> Result<(), RowFault> {
    let text = text_of(alloc, words)?;
    again(alloc, call, text.as_slice(), said)
}
