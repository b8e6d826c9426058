//! The packets that ICMP errors embed.

use crate::message::say_fault;
use crate::transport::say_ports;
use crate::{ip4, ip6};
use icmp_messages::{read_inner4, read_inner6};
use rows::{RowFault, Said, Words};
use std::alloc::Global;

fn read4(alloc: Global, words: &mut Words<'_>, said: &mut Said) -> Result<(), RowFault> {
    let octets = words.octets(alloc)?;
    match read_inner4(alloc, octets.as_slice()) {
        Ok(inner) => {
            said.shown(&inner.proto)?;
            say_ports(inner.ports, said)?;
            ip4::say_head(alloc, &inner.head, said)?;
            said.octets(inner.payload.as_slice())
        }
        Err(fault) => say_fault(fault, said),
    }
}

fn read6(alloc: Global, words: &mut Words<'_>, said: &mut Said) -> Result<(), RowFault> {
    let octets = words.octets(alloc)?;
    match read_inner6(alloc, octets.as_slice()) {
        Ok(inner) => {
            said.shown(&inner.proto)?;
            say_ports(inner.ports, said)?;
            ip6::say_head(alloc, &inner.head, said)?;
            said.octets(inner.payload.as_slice())
        }
        Err(fault) => say_fault(fault, said),
    }
}

pub fn answer(
    alloc: Global,
    call: &str,
    words: &mut Words<'_>,
    said: &mut Said,
) -> Result<(), RowFault> {
    match call {
        "read4" => read4(alloc, words, said),
        "read6" => read6(alloc, words, said),
        _ => Err(RowFault::NotARow),
    }
}
