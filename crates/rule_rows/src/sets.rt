//! `set.CALL OFFSET LENGTH PSID ..`: a port set, and what is asked of it.

use port_set::{BadPorts, PortSet};
use rows::{RowFault, Said, Words};

/// The set of the next three words.
pub fn set_of(words: &mut Words<'_>) -> Result<Result<PortSet, BadPorts>, RowFault> {
    let offset = words.eight()?;
    let length = words.eight()?;
    let psid = words.sixteen()?;
    Ok(PortSet::new(offset, length, psid))
}

/// Says the numbers of a set.
pub fn say_set(set: &PortSet, said: &mut Said) -> Result<(), RowFault> {
    said.number(u64::from(set.a))?;
    said.number(u64::from(set.k))?;
    said.number(u64::from(set.psid))
}

/// Says two ports, or `none`.
fn say_range(range: Option<(u16, u16)>, said: &mut Said) -> Result<(), RowFault> {
    match range {
        Some((first, last)) => {
            said.number(u64::from(first))?;
            said.number(u64::from(last))
        }
        None => said.word("none"),
    }
}

/// Says a number, or `none`.
fn say_number(number: Option<u32>, said: &mut Said) -> Result<(), RowFault> {
    match number {
        Some(number) => said.number(u64::from(number)),
        None => said.word("none"),
    }
}

fn ask(call: &str, set: &PortSet, words: &mut Words<'_>, said: &mut Said) -> Result<(), RowFault> {
    match call {
        "new" => say_set(set, said),
        "count" => said.number(u64::from(set.count())),
        "has" => said.flag(set.has(words.sixteen()?)),
        "claimable" => said.flag(set.claimable(words.sixteen()?)),
        "rank" => say_number(set.rank(words.sixteen()?), said),
        "at" => say_number(set.at(words.thirty_two()?).map(u32::from), said),
        "range" => say_range(set.range(words.thirty_two()?), said),
        "equals" => match set_of(words)? {
            Ok(other) => said.flag(*set == other),
            Err(bad) => said.shown(&bad),
        },
        _ => Err(RowFault::NotARow),
    }
}

/// Makes a call of a set. Where the numbers are none of a set, that is the answer.
pub fn answer(call: &str, words: &mut Words<'_>, said: &mut Said) -> Result<(), RowFault> {
    match set_of(words)? {
        Ok(set) => ask(call, &set, words, said),
        Err(bad) => said.shown(&bad),
    }
}
