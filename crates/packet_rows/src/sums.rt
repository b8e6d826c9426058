//! Internet sums.

use inet_sum::{adjust, as_udp, check_of, fold, sum};
use rows::{RowFault, Said, Words};
use std::alloc::Global;

/// The most octets that are summed at once.
const MOST: usize = 1 << 48;

fn sum_of(alloc: Global, words: &mut Words<'_>, said: &mut Said) -> Result<(), RowFault> {
    let octets = words.octets(alloc)?;
    let octets = octets.as_slice();
    if octets.len() > MOST {
        return said.word("unmet");
    }
    said.number(sum(octets))
}

fn adjusted(words: &mut Words<'_>, said: &mut Said) -> Result<(), RowFault> {
    let check = words.sixteen()?;
    let old = words.number()?;
    let new = words.number()?;
    said.number(u64::from(adjust(check, old, new)))
}

pub fn answer(
    alloc: Global,
    call: &str,
    words: &mut Words<'_>,
    said: &mut Said,
) -> Result<(), RowFault> {
    match call {
        "of" => sum_of(alloc, words, said),
        "fold" => said.number(u64::from(fold(words.number()?))),
        "check" => said.number(u64::from(check_of(words.number()?))),
        "adjust" => adjusted(words, said),
        "udp" => said.number(u64::from(as_udp(words.sixteen()?))),
        _ => Err(RowFault::NotARow),
    }
}
