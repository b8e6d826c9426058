//! IPv6 packets.

ghost use Rattle.std.specs.Prelude.{◌≡◌, IsTrue, None};
ghost use Rattle.ip6_packet.specs.Written.{IsUpper, IsPlaced};

use ip6_packet::{Frag6, Head6, is_no_destination};
use octets::Bytes;
use rows::{RowFault, Said, Words};
use std::alloc::Global;

/// Octets of the IPv6 header, and of one with a Fragment Header.
const PLAIN_START: u32 = 40;

const FRAGMENT_START: u32 = 48;
/// The most octets behind a Fragment Header.
const MOST_BEHIND_FRAGMENT: u16 = 65527;
/// A fragment's offset is below it.
const OFFSETS: u16 = 1 << 13;

/// The next words, which are the offset, the flag and the identification of a Fragment Header, or `-`.
fn frag_of(words: &mut Words<'_>) -> Result<Option<Frag6>, RowFault> {
    let word = words.word()?;
    if word == "-" {
        return Ok(None);
    }
    Ok(Some(Frag6 {
        offset: word.parse::<u16>().map_err(|_| RowFault::NotARow)?,
        more: words.flag()?,
        id: words.thirty_two()?,
    }))
}

/// The next word, which is a place, or `-`.
fn place_of(words: &mut Words<'_>) -> Result<Option<u32>, RowFault> {
    let word = words.word()?;
    if word == "-" {
        return Ok(None);
    }
    Ok(Some(word.parse::<u32>().map_err(|_| RowFault::NotARow)?))
}

/// The next words, which are the fields of a packet's headers in their order.
pub fn head_of(words: &mut Words<'_>) -> Result<Head6, RowFault> {
    Ok(Head6 {
        class: words.eight()?,
        hop: words.eight()?,
        src: words.addr6()?,
        dst: words.addr6()?,
        upper: words.eight()?,
        start: words.thirty_two()?,
        length: words.sixteen()?,
        frag: frag_of(words)?,
        left: place_of(words)?,
    })
}

fn say_frag(frag: Option<Frag6>, said: &mut Said) -> Result<(), RowFault> {
    match frag {
        Some(frag) => {
            said.number(u64::from(frag.offset))?;
            said.flag(frag.more)?;
            said.number(u64::from(frag.id))
        }
        None => said.word("-"),
    }
}

/// Says the fields of a packet's headers in their order.
pub fn say_head(alloc: Global, head: &Head6, said: &mut Said) -> Result<(), RowFault> {
    said.number(u64::from(head.class))?;
    said.number(u64::from(head.hop))?;
    said.addr6(alloc, head.src)?;
    said.addr6(alloc, head.dst)?;
    said.number(u64::from(head.upper))?;
    said.number(u64::from(head.start))?;
    said.number(u64::from(head.length))?;
    say_frag(head.frag, said)?;
    match head.left {
        Some(place) => said.number(u64::from(place)),
        None => said.word("-"),
    }
}

fn say_read(alloc: Global, octets: &[u8], said: &mut Said) -> Result<(), RowFault> {
    match Head6::read(octets) {
        Ok(head) => say_head(alloc, &head, said),
        Err(cause) => said.shown(&cause),
    }
}

fn read(alloc: Global, words: &mut Words<'_>, said: &mut Said) -> Result<(), RowFault> {
    let octets = words.octets(alloc)?;
    say_read(alloc, octets.as_slice(), said)
}

/// Reads the octets of a first word, those of a second word so many times, and those of a third word.
fn read_repeated(alloc: Global, words: &mut Words<'_>, said: &mut Said) -> Result<(), RowFault> {
    let mut octets = words.octets(alloc)?;
    let repeated = words.octets(alloc)?;
    for _ in 0..words.sixteen()? {
        octets.extend(repeated.as_slice())?;
    }
    let last: Bytes = words.octets(alloc)?;
    octets.extend(last.as_slice())?;
    say_read(alloc, octets.as_slice(), said)
}

fn embedded(alloc: Global, words: &mut Words<'_>, said: &mut Said) -> Result<(), RowFault> {
    let octets = words.octets(alloc)?;
    match Head6::read_embedded(octets.as_slice()) {
        Some(head) => say_head(alloc, &head, said),
        None => said.word("none"),
    }
}

/// The payload of a packet, the packet without what stands behind it, and what its Fragment Header says.
fn parts(alloc: Global, words: &mut Words<'_>, said: &mut Said) -> Result<(), RowFault> {
    let octets = words.octets(alloc)?;
    let octets = octets.as_slice();
    match Head6::read_embedded(octets) {
        Some(head) => {
            said.octets(head.payload(octets))?;
            said.octets(head.trimmed(octets))?;
            said.number(u64::from(head.fragment_offset()))?;
            said.flag(head.more_fragments())
        }
        None => said.word("none"),
    }
}

/// Whether the number is that of an upper protocol.
fn is_upper(number: u8) -> bool
    ensures { IsTrue result → IsUpper number }
{
    number != 0 && number != 43 && number != 44 && number != 60
}

/// Whether the payload stands right behind the headers that are written, and all lengths fit.
fn is_placed(head: &Head6) -> bool
    ensures { IsTrue result → IsPlaced head.now.start head.now.length head.now.frag }
{
    match head.frag {
        None => head.start == PLAIN_START,
        Some(frag) => {
            head.start == FRAGMENT_START
                && head.length <= MOST_BEHIND_FRAGMENT
                && frag.offset < OFFSETS
        }
    }
}

/// Whether a packet with these headers is written.
pub fn is_writable(head: &Head6) -> bool
    ensures upper { IsTrue result → IsUpper head.now.upper }
    ensures placed { IsTrue result → IsPlaced head.now.start head.now.length head.now.frag }
    ensures unrouted { IsTrue result → head.now.left ≡ None }
{
    is_upper(head.upper) && is_placed(head) && head.left.is_none()
}

fn write(alloc: Global, words: &mut Words<'_>, said: &mut Said) -> Result<(), RowFault> {
    let head = head_of(words)?;
    let payload = words.octets(alloc)?;
    let payload = payload.as_slice();
    if payload.len() > usize::from(head.length) || !is_writable(&head) {
        return said.word("unmet");
    }
    said.octets(head.write(alloc, payload)?.as_slice())
}

pub fn answer(
    alloc: Global,
    call: &str,
    words: &mut Words<'_>,
    said: &mut Said,
) -> Result<(), RowFault> {
    match call {
        "read" => read(alloc, words, said),
        "read_repeated" => read_repeated(alloc, words, said),
        "embedded" => embedded(alloc, words, said),
        "parts" => parts(alloc, words, said),
        "write" => write(alloc, words, said),
        "no_destination" => said.flag(is_no_destination(words.addr6()?)),
        _ => Err(RowFault::NotARow),
    }
}
