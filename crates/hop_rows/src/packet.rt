//! Packets as a node reads them.

use crate::notes::say_key;
use crate::sent::{say_fault, say_proto};
use icmp_messages::Row;
use octets::{Fault, NoMemory};
use packets::{Content4, Content6, Flow, Found, Packet4, Packet6};
use rows::{RowFault, Said, Words};
use std::alloc::Global;

/// Says a flow: whether the packet is an error, the protocol, both ports and the flags.
fn say_flow(said: &mut Said, flow: &Flow) -> Result<(), RowFault> {
    said.flag(flow.fault)?;
    say_proto(said, flow.proto)?;
    said.number(u64::from(flow.ports.src))?;
    said.number(u64::from(flow.ports.dst))?;
    said.number(u64::from(flow.flags))
}

/// Says what a packet carries, with the row by which a message is translated.
fn say_content(said: &mut Said, name: &str, row: Option<&Row>) -> Result<(), RowFault> {
    said.word(name)?;
    let Some(row) = row else {
        return Ok(());
    };
    said.number(u64::from(row.kind))?;
    said.number(u64::from(row.code))?;
    said.number(u64::from(row.to_kind))?;
    said.number(u64::from(row.to_code))?;
    said.shown(&row.rest)
}

/// Says what an IPv4 packet carries.
fn say_content4(said: &mut Said, content: &Content4) -> Result<(), RowFault> {
    match content {
        Content4::Segment { .. } => say_content(said, "segment", None),
        Content4::Later { .. } => say_content(said, "later", None),
        Content4::Query { row, .. } => say_content(said, "query", Some(row)),
        Content4::Error { row, .. } => say_content(said, "error", Some(row)),
    }
}

/// Says what an IPv6 packet carries.
fn say_content6(said: &mut Said, content: &Content6) -> Result<(), RowFault> {
    match content {
        Content6::Segment { .. } => say_content(said, "segment", None),
        Content6::Later { .. } => say_content(said, "later", None),
        Content6::Query { row, .. } => say_content(said, "query", Some(row)),
        Content6::Error { row, .. } => say_content(said, "error", Some(row)),
    }
}

/// `packet4 WAY PACKET`: what it carries, its flow, its part, and the key of its fragments at the side of this number.
fn packet4(alloc: Global, words: &mut Words<'_>, said: &mut Said) -> Result<(), RowFault> {
    let way = words.eight()?;
    let octets = words.octets(alloc)?;
    match Packet4::read(alloc, octets.as_slice()) {
        Ok(Found::Taken(packet)) => {
            say_content4(said, &packet.content)?;
            say_flow(said, &packet.flow())?;
            said.shown(&packet.extent())?;
            say_key(alloc, said, &packet.key(way))
        }
        Ok(Found::Unreadable(cause) | Found::Dropped(cause, _)) => {
            say_fault(said, Fault::Drop(cause))
        }
        Err(NoMemory) => say_fault(said, Fault::NoMemory),
    }
}

/// `packet6 WAY AT_RELAY PACKET`.
fn packet6(alloc: Global, words: &mut Words<'_>, said: &mut Said) -> Result<(), RowFault> {
    let way = words.eight()?;
    let at_relay = words.flag()?;
    let octets = words.octets(alloc)?;
    match Packet6::read(alloc, octets.as_slice(), at_relay) {
        Ok(Found::Taken(packet)) => {
            say_content6(said, &packet.content)?;
            say_flow(said, &packet.flow())?;
            said.shown(&packet.extent())?;
            say_key(alloc, said, &packet.key(way))
        }
        Ok(Found::Unreadable(cause) | Found::Dropped(cause, _)) => {
            say_fault(said, Fault::Drop(cause))
        }
        Err(NoMemory) => say_fault(said, Fault::NoMemory),
    }
}

/// Reads the packet.
pub fn answer(
    alloc: Global,
    verb: &str,
    words: &mut Words<'_>,
    said: &mut Said,
) -> Result<(), RowFault> {
    match verb {
        "packet4" => packet4(alloc, words, said),
        _ => packet6(alloc, words, said),
    }
}
