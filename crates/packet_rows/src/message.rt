//! ICMP messages of both versions.

use icmp_messages::{Icmp4, Icmp6};
use octets::Fault;
use rows::{RowFault, Said, Words};
use std::alloc::Global;

/// Says for what a packet is dropped. Want of memory is no answer.
pub fn say_fault(fault: Fault, said: &mut Said) -> Result<(), RowFault> {
    match fault {
        Fault::Drop(cause) => said.shown(&cause),
        Fault::NoMemory => Err(RowFault::NoMemory),
    }
}

fn say_message(
    kind: u8,
    code: u8,
    rest: u32,
    body: &[u8],
    said: &mut Said,
) -> Result<(), RowFault> {
    said.number(u64::from(kind))?;
    said.number(u64::from(code))?;
    said.number(u64::from(rest))?;
    said.octets(body)
}

fn read4(alloc: Global, words: &mut Words<'_>, said: &mut Said) -> Result<(), RowFault> {
    let message = words.octets(alloc)?;
    match Icmp4::read(alloc, message.as_slice()) {
        Ok(read) => say_message(read.kind, read.code, read.rest, read.body.as_slice(), said),
        Err(fault) => say_fault(fault, said),
    }
}

fn read6(alloc: Global, words: &mut Words<'_>, said: &mut Said) -> Result<(), RowFault> {
    let src = words.addr6()?;
    let dst = words.addr6()?;
    let message = words.octets(alloc)?;
    match Icmp6::read(alloc, src, dst, message.as_slice()) {
        Ok(read) => say_message(read.kind, read.code, read.rest, read.body.as_slice(), said),
        Err(fault) => say_fault(fault, said),
    }
}

fn write4(alloc: Global, words: &mut Words<'_>, said: &mut Said) -> Result<(), RowFault> {
    let message = Icmp4 {
        kind: words.eight()?,
        code: words.eight()?,
        rest: words.thirty_two()?,
        body: words.octets(alloc)?,
    };
    said.octets(message.write(alloc)?.as_slice())
}

fn write6(alloc: Global, words: &mut Words<'_>, said: &mut Said) -> Result<(), RowFault> {
    let src = words.addr6()?;
    let dst = words.addr6()?;
    let message = Icmp6 {
        kind: words.eight()?,
        code: words.eight()?,
        rest: words.thirty_two()?,
        body: words.octets(alloc)?,
    };
    said.octets(message.write(alloc, src, dst)?.as_slice())
}

pub fn answer(
    alloc: Global,
    call: &str,
    words: &mut Words<'_>,
    said: &mut Said,
) -> Result<(), RowFault> {
    match call {
        "read4" => read4(alloc, words, said),
        "read6" => read6(alloc, words, said),
        "write4" => write4(alloc, words, said),
        "write6" => write6(alloc, words, said),
        _ => Err(RowFault::NotARow),
    }
}
