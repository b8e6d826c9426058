//! Packets that an edge turns.

use crate::sent::{say_fault, say_unmet, say_written};
use octets::{Fault, NoMemory};
use packets::{Found, Packet4};
use rows::{RowFault, Said, Words};
use std::alloc::Global;
use turned_packets::{turned_in, turned_out};

/// `turned_out PACKET ADDRESS PORT`: the packet as it is sent, from there. It has a TTL that can be lowered.
fn sent(alloc: Global, words: &mut Words<'_>, said: &mut Said) -> Result<(), RowFault> {
    let octets = words.octets(alloc)?;
    let from = words.addr4()?;
    let port = words.sixteen()?;
    match Packet4::read(alloc, octets.as_slice()) {
        Ok(Found::Taken(packet)) => {
            if packet.head.ttl == 0 {
                return say_unmet(said);
            }
            let written = turned_out(alloc, &packet, octets.as_slice(), from, port);
            say_written(said, written)
        }
        Ok(Found::Unreadable(cause) | Found::Dropped(cause, _)) => {
            say_fault(said, Fault::Drop(cause))
        }
        Err(NoMemory) => say_fault(said, Fault::NoMemory),
    }
}

/// `turned_in PACKET ADDRESS PORT`: the packet as it is received, by that host and port.
fn received(alloc: Global, words: &mut Words<'_>, said: &mut Said) -> Result<(), RowFault> {
    let octets = words.octets(alloc)?;
    let to = words.addr4()?;
    let port = words.sixteen()?;
    match Packet4::read(alloc, octets.as_slice()) {
        Ok(Found::Taken(packet)) => say_written(
            said,
            turned_in(alloc, &packet, octets.as_slice(), to, port),
        ),
        Ok(Found::Unreadable(cause) | Found::Dropped(cause, _)) => {
            say_fault(said, Fault::Drop(cause))
        }
        Err(NoMemory) => say_fault(said, Fault::NoMemory),
    }
}

/// Turns the packet.
pub fn answer(
    alloc: Global,
    verb: &str,
    words: &mut Words<'_>,
    said: &mut Said,
) -> Result<(), RowFault> {
    match verb {
        "turned_out" => sent(alloc, words, said),
        _ => received(alloc, words, said),
    }
}
