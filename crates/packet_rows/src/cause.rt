//! Causes and transport protocols by their numbers.

use octets::{Cause, Proto};
use rows::{RowFault, Said, Words};

fn numbered(words: &mut Words<'_>, said: &mut Said) -> Result<(), RowFault> {
    match Cause::from_number(words.eight()?) {
        Some(cause) => {
            said.shown(&cause)?;
            said.number(u64::from(cause.number()))
        }
        None => said.word("none"),
    }
}

fn carried(proto: Option<Proto>, said: &mut Said) -> Result<(), RowFault> {
    match proto {
        Some(proto) => said.shown(&proto),
        None => said.word("none"),
    }
}

pub fn answer(call: &str, words: &mut Words<'_>, said: &mut Said) -> Result<(), RowFault> {
    match call {
        "numbered" => numbered(words, said),
        "carried4" => carried(Proto::of4(words.eight()?), said),
        "carried6" => carried(Proto::of6(words.eight()?), said),
        "number4" => said.number(u64::from(words.proto()?.number4())),
        "number6" => said.number(u64::from(words.proto()?.number6())),
        _ => Err(RowFault::NotARow),
    }
}
