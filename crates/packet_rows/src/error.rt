//! The errors that answer packets, and the pieces of a packet that is cut.

ghost use Rattle.std.specs.Prelude.{IsTrue};
ghost use Rattle.ip6_packet.specs.Causes.{IsWrongFrag6};

use crate::ip6;
use ip4_packet::Head4;
use ip6_packet::Head6;
use octets::{Bytes, is_wrong_fragment};
use packet_faults::{cut6, fault4, fault6};
use rows::{RowFault, Said, Words};
use std::alloc::Global;

/// The least MTU.
const LEAST_MTU: u16 = 1280;

fn say_error(error: Option<Bytes>, said: &mut Said) -> Result<(), RowFault> {
    match error {
        Some(octets) => said.octets(octets.as_slice()),
        None => said.word("none"),
    }
}

fn answer4(alloc: Global, words: &mut Words<'_>, said: &mut Said) -> Result<(), RowFault> {
    let packet = words.octets(alloc)?;
    let packet = packet.as_slice();
    let kind = words.eight()?;
    let code = words.eight()?;
    let rest = words.thirty_two()?;
    let src = words.addr4()?;
    let id = words.sixteen()?;
    if Head4::read(packet).is_err() {
        return said.word("unmet");
    }
    say_error(fault4(alloc, packet, kind, code, rest, src, id)?, said)
}

fn answer6(alloc: Global, words: &mut Words<'_>, said: &mut Said) -> Result<(), RowFault> {
    let packet = words.octets(alloc)?;
    let packet = packet.as_slice();
    let kind = words.eight()?;
    let code = words.eight()?;
    let rest = words.thirty_two()?;
    let src = words.addr6()?;
    if Head6::read(packet).is_err() {
        return said.word("unmet");
    }
    say_error(fault6(alloc, packet, kind, code, rest, src)?, said)
}

/// Whether the fragment fields agree with the length.
fn agrees(head: &Head6) -> bool
    ensures { IsTrue result → IsWrongFrag6 head.now.frag head.now.length → ⊥ }
{
    match head.frag {
        None => true,
        Some(frag) => !is_wrong_fragment(frag.offset, frag.more, usize::from(head.length)),
    }
}

/// The pieces of the packet with these headers and this payload.
fn cut(alloc: Global, words: &mut Words<'_>, said: &mut Said) -> Result<(), RowFault> {
    let head = ip6::head_of(words)?;
    let payload = words.octets(alloc)?;
    let payload = payload.as_slice();
    let mtu = words.sixteen()?;
    let id = words.thirty_two()?;
    if payload.len() != usize::from(head.length) || !ip6::is_writable(&head) || !agrees(&head) {
        return said.word("unmet");
    }
    let packet = head.write(alloc, payload)?;
    let packet = packet.as_slice();
    if mtu < LEAST_MTU || packet.len() <= usize::from(mtu) {
        return said.word("unmet");
    }
    let pieces = cut6(alloc, packet, mtu, id)?;
    for piece in pieces.as_slice() {
        said.number(piece.place)?;
        said.octets(piece.bytes.as_slice())?;
    }
    Ok(())
}

pub fn answer(
    alloc: Global,
    call: &str,
    words: &mut Words<'_>,
    said: &mut Said,
) -> Result<(), RowFault> {
    match call {
        "answer4" => answer4(alloc, words, said),
        "answer6" => answer6(alloc, words, said),
        "cut" => cut(alloc, words, said),
        _ => Err(RowFault::NotARow),
    }
}
