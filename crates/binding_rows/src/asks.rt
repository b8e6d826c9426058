//! What a machine is asked, in words.

use crate::fragments::{read_key, say_key};
use nat_model::{Ask, End4, Far, Part};
use octets::Proto;
use rows::{RowFault, Said, Words};
use std::alloc::Global;

/// The next words as an end: its address and port.
fn read_end(words: &mut Words<'_>) -> Result<End4, RowFault> {
    let addr = words.addr4()?;
    let port = words.sixteen()?;
    Ok(End4 { addr, port })
}

/// The next words as a part: `whole`, `first KEY` or `later KEY OCTETS`.
fn read_part(alloc: Global, words: &mut Words<'_>) -> Result<Part, RowFault> {
    match words.word()? {
        "whole" => Ok(Part::Whole),
        "first" => Ok(Part::First(read_key(words)?)),
        "later" => {
            let key = read_key(words)?;
            Ok(Part::Later(key, words.octets(alloc)?))
        }
        _ => Err(RowFault::NotARow),
    }
}

/// The next words as a remote side: `six` or `turned`, its destination, source and peer, and the remote port.
fn read_far(words: &mut Words<'_>) -> Result<Far, RowFault> {
    match words.word()? {
        "six" => {
            let dst = words.addr6()?;
            let src = words.addr6()?;
            let peer = words.addr6()?;
            let port = words.sixteen()?;
            Ok(Far::Six {
                dst,
                src,
                peer,
                port,
            })
        }
        "turned" => {
            let dst = words.addr4()?;
            let src = words.addr4()?;
            let peer = words.addr4()?;
            let port = words.sixteen()?;
            Ok(Far::Turned {
                dst,
                src,
                peer,
                port,
            })
        }
        _ => Err(RowFault::NotARow),
    }
}

/// The next word as what a packet is: `flow` or `error`.
fn read_fault(words: &mut Words<'_>) -> Result<bool, RowFault> {
    match words.word()? {
        "flow" => Ok(false),
        "error" => Ok(true),
        _ => Err(RowFault::NotARow),
    }
}

/// The next words as a packet from the LAN.
fn read_outward(alloc: Global, words: &mut Words<'_>) -> Result<Ask, RowFault> {
    let fault = read_fault(words)?;
    let proto = words.proto()?;
    let near = read_end(words)?;
    let far = read_end(words)?;
    let flags = words.eight()?;
    let part = read_part(alloc, words)?;
    Ok(Ask::Outward {
        fault,
        proto,
        near,
        far,
        flags,
        part,
    })
}

/// The next words as a packet to the edge.
fn read_inward(alloc: Global, words: &mut Words<'_>) -> Result<Ask, RowFault> {
    let fault = read_fault(words)?;
    let proto = words.proto()?;
    let port = words.sixteen()?;
    let far = read_far(words)?;
    let flags = words.eight()?;
    let part = read_part(alloc, words)?;
    Ok(Ask::Inward {
        fault,
        proto,
        port,
        far,
        flags,
        part,
    })
}

/// The next words as a port that is to be kept.
fn read_keep(words: &mut Words<'_>) -> Result<Ask, RowFault> {
    let proto = words.proto()?;
    let host = words.addr4()?;
    let host_port = words.sixteen()?;
    let port = words.sixteen()?;
    let until = words.number()?;
    Ok(Ask::Keep {
        proto,
        host,
        host_port,
        port,
        until,
    })
}

/// The next words as an ask.
pub(crate) fn read_ask(alloc: Global, words: &mut Words<'_>) -> Result<Ask, RowFault> {
    match words.word()? {
        "outward" => read_outward(alloc, words),
        "inward" => read_inward(alloc, words),
        "keep" => read_keep(words),
        _ => Err(RowFault::NotARow),
    }
}

/// Says a protocol as it is read.
pub(crate) fn say_proto(proto: Proto, said: &mut Said) -> Result<(), RowFault> {
    said.word(match proto {
        Proto::Tcp => "tcp",
        Proto::Udp => "udp",
        Proto::Icmp => "icmp",
    })
}

/// Says an end as it is read.
fn say_end(alloc: Global, end: End4, said: &mut Said) -> Result<(), RowFault> {
    said.addr4(alloc, end.addr)?;
    said.number(u64::from(end.port))
}

/// Says the flags and a part as they are read.
fn say_part(alloc: Global, flags: u8, part: &Part, said: &mut Said) -> Result<(), RowFault> {
    said.number(u64::from(flags))?;
    match part {
        Part::Whole => said.word("whole"),
        Part::First(key) => {
            said.word("first")?;
            say_key(alloc, key, said)
        }
        Part::Later(key, octets) => {
            said.word("later")?;
            say_key(alloc, key, said)?;
            said.octets(octets.as_slice())
        }
    }
}

/// Says a remote side as it is read.
fn say_far(alloc: Global, far: &Far, said: &mut Said) -> Result<(), RowFault> {
    match far {
        Far::Six {
            dst,
            src,
            peer,
            port,
        } => {
            said.word("six")?;
            said.addr6(alloc, *dst)?;
            said.addr6(alloc, *src)?;
            said.addr6(alloc, *peer)?;
            said.number(u64::from(*port))
        }
        Far::Turned {
            dst,
            src,
            peer,
            port,
        } => {
            said.word("turned")?;
            said.addr4(alloc, *dst)?;
            said.addr4(alloc, *src)?;
            said.addr4(alloc, *peer)?;
            said.number(u64::from(*port))
        }
    }
}

/// Says what a packet is, and its protocol, as they are read.
fn say_kind(fault: bool, proto: Proto, said: &mut Said) -> Result<(), RowFault> {
    said.word(if fault { "error" } else { "flow" })?;
    say_proto(proto, said)
}

/// Says an ask as it is read.
pub(crate) fn say_ask(alloc: Global, ask: &Ask, said: &mut Said) -> Result<(), RowFault> {
    match ask {
        Ask::Outward {
            fault,
            proto,
            near,
            far,
            flags,
            part,
        } => {
            said.word("outward")?;
            say_kind(*fault, *proto, said)?;
            say_end(alloc, *near, said)?;
            say_end(alloc, *far, said)?;
            say_part(alloc, *flags, part, said)
        }
        Ask::Inward {
            fault,
            proto,
            port,
            far,
            flags,
            part,
        } => {
            said.word("inward")?;
            say_kind(*fault, *proto, said)?;
            said.number(u64::from(*port))?;
            say_far(alloc, far, said)?;
            say_part(alloc, *flags, part, said)
        }
        Ask::Keep {
            proto,
            host,
            host_port,
            port,
            until,
        } => {
            said.word("keep")?;
            say_proto(*proto, said)?;
            said.addr4(alloc, *host)?;
            said.number(u64::from(*host_port))?;
            said.number(u64::from(*port))?;
            said.number(*until)
        }
    }
}
