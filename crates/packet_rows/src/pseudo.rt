//! Sums of pseudo headers and of addresses.

use l4_headers::{address_sum4, address_sum6, pseudo_sum4, pseudo_sum6};
use rows::{RowFault, Said, Words};

fn header4(words: &mut Words<'_>, said: &mut Said) -> Result<(), RowFault> {
    let src = words.addr4()?;
    let dst = words.addr4()?;
    let protocol = words.eight()?;
    said.number(pseudo_sum4(src, dst, protocol, words.sixteen()?))
}

fn header6(words: &mut Words<'_>, said: &mut Said) -> Result<(), RowFault> {
    let src = words.addr6()?;
    let dst = words.addr6()?;
    let protocol = words.eight()?;
    said.number(pseudo_sum6(src, dst, protocol, words.thirty_two()?))
}

pub fn answer(call: &str, words: &mut Words<'_>, said: &mut Said) -> Result<(), RowFault> {
    match call {
        "address4" => said.number(address_sum4(words.addr4()?)),
        "address6" => said.number(address_sum6(words.addr6()?)),
        "header4" => header4(words, said),
        "header6" => header6(words, said),
        _ => Err(RowFault::NotARow),
    }
}
