//! IPv4 packets.

use ip4_packet::{Head4, is_no_destination};
use rows::{RowFault, Said, Words};
use std::alloc::Global;

/// Octets of a header without options.
const HEADER_LEN: usize = 20;
/// A fragment's offset is below it.
const OFFSETS: u16 = 1 << 13;

/// The next words, which are the fields of a header in their order.
fn head_of(words: &mut Words<'_>) -> Result<Head4, RowFault> {
    Ok(Head4 {
        tos: words.eight()?,
        id: words.sixteen()?,
        df: words.flag()?,
        mf: words.flag()?,
        offset: words.sixteen()?,
        ttl: words.eight()?,
        proto: words.eight()?,
        src: words.addr4()?,
        dst: words.addr4()?,
        head_len: words.eight()?,
        total: words.sixteen()?,
        routed: words.flag()?,
    })
}

/// Says the fields of a header in their order.
pub fn say_head(alloc: Global, head: &Head4, said: &mut Said) -> Result<(), RowFault> {
    said.number(u64::from(head.tos))?;
    said.number(u64::from(head.id))?;
    said.flag(head.df)?;
    said.flag(head.mf)?;
    said.number(u64::from(head.offset))?;
    said.number(u64::from(head.ttl))?;
    said.number(u64::from(head.proto))?;
    said.addr4(alloc, head.src)?;
    said.addr4(alloc, head.dst)?;
    said.number(u64::from(head.head_len))?;
    said.number(u64::from(head.total))?;
    said.flag(head.routed)
}

fn read(alloc: Global, words: &mut Words<'_>, said: &mut Said) -> Result<(), RowFault> {
    let octets = words.octets(alloc)?;
    match Head4::read(octets.as_slice()) {
        Ok(head) => say_head(alloc, &head, said),
        Err(cause) => said.shown(&cause),
    }
}

fn embedded(alloc: Global, words: &mut Words<'_>, said: &mut Said) -> Result<(), RowFault> {
    let octets = words.octets(alloc)?;
    match Head4::read_embedded(octets.as_slice()) {
        Some(head) => say_head(alloc, &head, said),
        None => said.word("none"),
    }
}

/// The payload of a packet, and the packet without what stands behind it.
fn parts(alloc: Global, words: &mut Words<'_>, said: &mut Said) -> Result<(), RowFault> {
    let octets = words.octets(alloc)?;
    let octets = octets.as_slice();
    match Head4::read_embedded(octets) {
        Some(head) => {
            said.octets(head.payload(octets))?;
            said.octets(head.trimmed(octets))
        }
        None => said.word("none"),
    }
}

fn write(alloc: Global, words: &mut Words<'_>, said: &mut Said) -> Result<(), RowFault> {
    let head = head_of(words)?;
    let payload = words.octets(alloc)?;
    let payload = payload.as_slice();
    if usize::from(head.total) < HEADER_LEN
        || usize::from(head.total) - HEADER_LEN < payload.len()
    {
        return said.word("unmet");
    }
    if usize::from(head.head_len) != HEADER_LEN || head.routed || head.offset >= OFFSETS {
        return said.word("unmet");
    }
    said.octets(head.write(alloc, payload)?.as_slice())
}

pub fn answer(
    alloc: Global,
    call: &str,
    words: &mut Words<'_>,
    said: &mut Said,
) -> Result<(), RowFault> {
    match call {
        "read" => read(alloc, words, said),
        "embedded" => embedded(alloc, words, said),
        "parts" => parts(alloc, words, said),
        "write" => write(alloc, words, said),
        "no_destination" => said.flag(is_no_destination(words.addr4()?)),
        _ => Err(RowFault::NotARow),
    }
}
