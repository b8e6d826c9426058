//! Captures.

use pcap_files::{CaptureFault, Writer, read};
use rows::{RowFault, Said, Words};
use std::alloc::Global;

/// The greatest time that a record has room for, in microseconds.
const MOST_TIME: u64 = 4_294_967_295 * 1_000_000 + 4_294_967_295;
/// A packet has fewer octets.
const MOST_OCTETS: usize = 1 << 32;

/// The number of records that a capture holds, and the time and the octets of each.
fn read_records(alloc: Global, words: &mut Words<'_>, said: &mut Said) -> Result<(), RowFault> {
    let room = words.thirty_two()?;
    let octets = words.octets(alloc)?;
    match read(alloc, octets.as_slice(), room) {
        Ok(records) => {
            said.number(records.as_slice().len() as u64)?;
            for record in records.as_slice() {
                said.number(record.time)?;
                said.octets(record.bytes.as_slice())?;
            }
            Ok(())
        }
        Err(CaptureFault::NoMemory) => Err(RowFault::NoMemory),
        Err(fault) => said.shown(&fault),
    }
}

/// The sentence of a fault.
fn fault(alloc: Global, words: &mut Words<'_>, said: &mut Said) -> Result<(), RowFault> {
    let room = words.thirty_two()?;
    let octets = words.octets(alloc)?;
    match read(alloc, octets.as_slice(), room) {
        Ok(_) => said.word("none"),
        Err(fault) => said.word(fault.to_string(alloc)?.as_str()),
    }
}

/// The capture of so many records.
fn write(alloc: Global, words: &mut Words<'_>, said: &mut Said) -> Result<(), RowFault> {
    let mut writer = Writer::new(alloc)?;
    for _ in 0..words.eight()? {
        let time = words.number()?;
        let packet = words.octets(alloc)?;
        let packet = packet.as_slice();
        if time > MOST_TIME || packet.len() >= MOST_OCTETS {
            return said.word("unmet");
        }
        writer.add(time, packet)?;
    }
    said.octets(writer.as_slice())
}

pub fn answer(
    alloc: Global,
    call: &str,
    words: &mut Words<'_>,
    said: &mut Said,
) -> Result<(), RowFault> {
    match call {
        "read" => read_records(alloc, words, said),
        "fault" => fault(alloc, words, said),
        "write" => write(alloc, words, said),
        _ => Err(RowFault::NotARow),
    }
}
