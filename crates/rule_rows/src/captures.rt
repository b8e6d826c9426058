//! `script.CALL TEXT SIDE RECORDS ..`: a configuration and its captures. SIDE is `access`, `core`, or the place of an edge. RECORDS is one
//! word of records with `,` between two, or `-`; a record is TIME:OCTETS, or COUNT*TIME:OCTETS for so many of them.

use crate::parts::Parts;
use crate::traces::say_trace;
use domain_run::replay_one;
use mapt_setup::{Capture, Script, ScriptItem, Setup, Side, captures_fit};
use octets::Bytes;
use pcap_files::{Records, Writer, read};
use rows::{RowFault, Said, Words};
use std::alloc::Global;

/// The most captures of a row.
const MOST: u32 = 300;

/// The most records of a capture of a row.
const MOST_RECORDS: u32 = 1_000_000;

fn side_of(words: &mut Words<'_>) -> Result<Side, RowFault> {
    match words.word()? {
        "access" => Ok(Side::Access),
        "core" => Ok(Side::Core),
        place => match place.parse::<u32>() {
            Ok(place) => Ok(Side::Lan(place)),
            Err(_) => Err(RowFault::NotARow),
        },
    }
}

fn add(writer: &mut Writer, time: u32, packet: &[u8]) -> Result<(), RowFault> {
    if packet.len() > 65_535 {
        return Err(RowFault::NotARow);
    }
    writer.add(u64::from(time), packet)?;
    Ok(())
}

/// Adds the records that a word stands for.
fn add_records(alloc: Global, writer: &mut Writer, word: &str) -> Result<(), RowFault> {
    let (count, one) = match word.split_once('*') {
        Some((count, one)) => (count.parse::<u32>().map_err(|_| RowFault::NotARow)?, one),
        None => (1, word),
    };
    let Some((time, packet)) = one.split_once(':') else {
        return Err(RowFault::NotARow);
    };
    let time = time.parse::<u32>().map_err(|_| RowFault::NotARow)?;
    let packet = Words::of(packet).octets(alloc)?;
    for _ in 0..count {
        add(writer, time, packet.as_slice())?;
    }
    Ok(())
}

fn records_of(alloc: Global, words: &mut Words<'_>) -> Result<Records, RowFault> {
    let mut writer = Writer::new(alloc)?;
    let word = words.word()?;
    if word != "-" {
        for one in word.split(',') {
            add_records(alloc, &mut writer, one)?;
        }
    }
    read(alloc, writer.as_slice(), MOST_RECORDS).map_err(|_| RowFault::NotARow)
}

/// The captures of the words that are left.
fn captures_of(alloc: Global, words: &mut Words<'_>) -> Result<Vec<Capture>, RowFault> {
    let mut captures = Vec::new(alloc);
    for _ in 0..MOST {
        if words.is_done() {
            break;
        }
        let side = side_of(words)?;
        let records = records_of(alloc, words)?;
        captures
            .push(Capture { side, records })
            .map_err(|_| RowFault::NoMemory)?;
    }
    Ok(captures)
}

fn say_side(side: Side, said: &mut Said) -> Result<(), RowFault> {
    match side {
        Side::Lan(edge) => said.number(u64::from(edge)),
        Side::Access => said.word("access"),
        Side::Core => said.word("core"),
    }
}

fn say_record(side: Side, time: u64, bytes: &Bytes, said: &mut Said) -> Result<(), RowFault> {
    said.word("record")?;
    say_side(side, said)?;
    said.number(time)?;
    said.octets(bytes.as_slice())
}

fn say_script(script: &Script, said: &mut Said) -> Result<(), RowFault> {
    for item in script.as_slice() {
        match item {
            ScriptItem::Rec { side, time, bytes } => say_record(*side, *time, bytes, said)?,
            ScriptItem::Move { number, live } => {
                said.word(if *live { "live" } else { "still" })?;
                said.number(u64::from(*number))?;
            }
        }
    }
    Ok(())
}

/// Makes a call of a configuration and its captures.
pub fn answer(
    alloc: Global,
    parts: &Parts,
    call: &str,
    words: &mut Words<'_>,
    said: &mut Said,
) -> Result<(), RowFault> {
    let text = parts.text(alloc, words)?;
    let Ok(setup) = Setup::read(alloc, text.as_slice()) else {
        return Err(RowFault::NotARow);
    };
    let captures = captures_of(alloc, words)?;
    let fits = captures_fit(&setup, &captures);
    match call {
        "fits" => said.flag(fits),
        "merge" if fits => say_script(&Script::merge(alloc, &setup, &captures)?, said),
        "trace" if fits => {
            let script = Script::merge(alloc, &setup, &captures)?;
            say_trace(alloc, &replay_one(alloc, &setup, &script)?, said)
        }
        "merge" | "trace" => said.word("unmet"),
        _ => Err(RowFault::NotARow),
    }
}
