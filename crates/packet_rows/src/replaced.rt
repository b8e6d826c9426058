//! Sums of transport headers whose addresses and ports were replaced.

use crate::transport::ports_of;
use l4_headers::{L4, computed_udp_sum, readdressed_sum};
use octets::word_at;
use rows::{RowFault, Said, Words};
use std::alloc::Global;

/// The greatest sum of words that a row asks with.
const MOST: u64 = 1 << 32;
/// Octets of a UDP header.
const UDP_HEADER: usize = 8;
/// Where the sum of a UDP header stands.
const UDP_SUM_AT: usize = 6;
/// The most octets of a datagram.
const MOST_OCTETS: usize = 1 << 32;

fn adjusted(words: &mut Words<'_>, said: &mut Said) -> Result<(), RowFault> {
    let proto = words.proto()?;
    let l4 = L4 {
        ports: ports_of(words)?,
        sum: words.sixteen()?,
        flags: 0,
    };
    let old = words.number()?;
    let new = words.number()?;
    let ports = ports_of(words)?;
    if old > MOST || new > MOST {
        return said.word("unmet");
    }
    said.number(u64::from(readdressed_sum(proto, &l4, old, new, ports)))
}

fn computed(alloc: Global, words: &mut Words<'_>, said: &mut Said) -> Result<(), RowFault> {
    let pseudo = words.number()?;
    let datagram = words.octets(alloc)?;
    let datagram = datagram.as_slice();
    let ports = ports_of(words)?;
    if pseudo > MOST || datagram.len() < UDP_HEADER || datagram.len() > MOST_OCTETS {
        return said.word("unmet");
    }
    if word_at(datagram, UDP_SUM_AT) != 0 {
        return said.word("unmet");
    }
    said.number(u64::from(computed_udp_sum(pseudo, datagram, ports)))
}

pub fn answer(
    alloc: Global,
    call: &str,
    words: &mut Words<'_>,
    said: &mut Said,
) -> Result<(), RowFault> {
    match call {
        "sum" => adjusted(words, said),
        "udp_sum" => computed(alloc, words, said),
        _ => Err(RowFault::NotARow),
    }
}
