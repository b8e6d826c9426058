//! `container.CALL ..`: octets that are a container, and items that are one.
//!
//! An item is `rule`, whether it forwards, the number of EA bits, its IPv4 and its IPv6 prefix, and SUBS; or `dmr PREFIX`; or
//! `other CODE OCTETS`.

use crate::options::{say_other, say_subs, subs_of};
use crate::spelling::say_text;
use octets::Bytes;
use rows::{RowFault, Said, Words};
use s46_options::{Container, Item, options_text, read_container, write_container};
use std::alloc::Global;

/// The most items of a row.
const MOST: u32 = 400;

/// An item.
fn item_of(alloc: Global, words: &mut Words<'_>) -> Result<Item, RowFault> {
    match words.word()? {
        "rule" => {
            let flag = words.flag()?;
            let ea = words.eight()?;
            let prefix4 = words.prefix4()?;
            let prefix6 = words.prefix6()?;
            let subs = subs_of(alloc, words)?;
            Ok(Item::Rule {
                flag,
                ea,
                prefix4,
                prefix6,
                subs,
            })
        }
        "dmr" => Ok(Item::Dmr(words.prefix6()?)),
        "other" => {
            let code = words.sixteen()?;
            Ok(Item::Other(code, words.octets(alloc)?))
        }
        _ => Err(RowFault::NotARow),
    }
}

/// The items of the words that are left.
fn items_of(alloc: Global, words: &mut Words<'_>) -> Result<Vec<Item>, RowFault> {
    let mut items = Vec::new(alloc);
    for _ in 0..MOST {
        if words.is_done() {
            break;
        }
        items
            .push(item_of(alloc, words)?)
            .map_err(|_| RowFault::NoMemory)?;
    }
    Ok(items)
}

/// Says an item.
fn say_item(alloc: Global, item: &Item, said: &mut Said) -> Result<(), RowFault> {
    match item {
        Item::Rule {
            flag,
            ea,
            prefix4,
            prefix6,
            subs,
        } => {
            said.word("rule")?;
            said.flag(*flag)?;
            said.number(u64::from(*ea))?;
            said.prefix4(alloc, prefix4)?;
            said.prefix6(alloc, prefix6)?;
            say_subs(subs.as_slice(), said)
        }
        Item::Dmr(prefix) => {
            said.word("dmr")?;
            said.prefix6(alloc, prefix)
        }
        Item::Other(code, octets) => say_other(*code, octets.as_slice(), said),
    }
}

/// Says the items of the container that the octets are, its text, or its octets written again; and of octets that are none the fault.
fn read(alloc: Global, call: &str, octets: &[u8], said: &mut Said) -> Result<(), RowFault> {
    let container = match read_container(alloc, octets) {
        Ok(container) => container,
        Err(fault) => return said.shown(&fault),
    };
    match call {
        "read" => {
            for item in container.as_slice() {
                say_item(alloc, item, said)?;
            }
            Ok(())
        }
        "text" => say_text(alloc, options_text(alloc, &container)?.as_slice(), said),
        "again" => said.octets(write_container(alloc, &container)?.as_slice()),
        _ => Err(RowFault::NotARow),
    }
}

/// Says the place of the fault that the octets show, and its sentence.
fn fault(alloc: Global, octets: &[u8], said: &mut Said) -> Result<(), RowFault> {
    let Err(fault) = read_container(alloc, octets) else {
        return said.word("none");
    };
    let Ok(length) = u32::try_from(octets.len()) else {
        return Err(RowFault::NotARow);
    };
    said.number(u64::from(fault.place(length)))?;
    said.text(fault.to_string(alloc)?.as_bytes())
}

/// Makes a call of a container.
pub fn answer(
    alloc: Global,
    call: &str,
    words: &mut Words<'_>,
    said: &mut Said,
) -> Result<(), RowFault> {
    if call == "write" {
        return match Container::of(items_of(alloc, words)?) {
            Some(container) => said.octets(write_container(alloc, &container)?.as_slice()),
            None => said.word("none"),
        };
    }
    let octets: Bytes = words.octets(alloc)?;
    if call == "fault" {
        return fault(alloc, octets.as_slice(), said);
    }
    read(alloc, call, octets.as_slice(), said)
}
