//! `hex.read TEXT`: hexadecimal text. `subs.offset SUBS`: the offset of a rule with these options.
//!
//! SUBS is how many options stand inside of a rule, and each of these: `params OFFSET LENGTH PSID`, or `other CODE OCTETS`.

use crate::spelling::push_read;
use octets::Bytes;
use rows::{RowFault, Said, Words};
use s46_options::{HexFault, Sub, Subs, offset_in, read_hex};
use std::alloc::Global;

/// The longest text of hexadecimal digits of a row.
const MOST_TEXT: usize = 1 << 26;

/// An option inside of a rule.
fn sub_of(alloc: Global, words: &mut Words<'_>) -> Result<Sub, RowFault> {
    match words.word()? {
        "params" => {
            let offset = words.eight()?;
            let psid_len = words.eight()?;
            let psid = words.sixteen()?;
            Ok(Sub::Params {
                offset,
                psid_len,
                psid,
            })
        }
        "other" => {
            let code = words.sixteen()?;
            Ok(Sub::Other(code, words.octets(alloc)?))
        }
        _ => Err(RowFault::NotARow),
    }
}

/// The options inside of a rule.
pub fn subs_of(alloc: Global, words: &mut Words<'_>) -> Result<Subs, RowFault> {
    let mut subs = Vec::new(alloc);
    for _ in 0..words.sixteen()? {
        subs.push(sub_of(alloc, words)?)
            .map_err(|_| RowFault::NoMemory)?;
    }
    Ok(Subs::from_vec(subs))
}

/// Says the options inside of a rule.
pub fn say_subs(subs: &[Sub], said: &mut Said) -> Result<(), RowFault> {
    said.number(subs.len() as u64)?;
    for sub in subs {
        match sub {
            Sub::Params {
                offset,
                psid_len,
                psid,
            } => {
                said.word("params")?;
                said.number(u64::from(*offset))?;
                said.number(u64::from(*psid_len))?;
                said.number(u64::from(*psid))?;
            }
            Sub::Other(code, octets) => say_other(*code, octets.as_slice(), said)?,
        }
    }
    Ok(())
}

/// Says an option that isn't known.
pub fn say_other(code: u16, octets: &[u8], said: &mut Said) -> Result<(), RowFault> {
    said.word("other")?;
    said.number(u64::from(code))?;
    said.octets(octets)
}

/// Makes a call about hexadecimal text.
pub fn of_hex(
    alloc: Global,
    call: &str,
    words: &mut Words<'_>,
    said: &mut Said,
) -> Result<(), RowFault> {
    if call != "read" {
        return Err(RowFault::NotARow);
    }
    let mut text = Bytes::new(alloc);
    let word = words.word()?;
    if word != "-" {
        push_read(&mut text, word)?;
    }
    if text.as_slice().len() > MOST_TEXT {
        return said.word("unmet");
    }
    match read_hex(alloc, text.as_slice()) {
        Ok(octets) => said.octets(octets.as_slice()),
        Err(HexFault::NoMemory) => Err(RowFault::NoMemory),
        Err(fault) => said.shown(&fault),
    }
}

/// Makes a call about the options inside of a rule.
pub fn of_subs(
    alloc: Global,
    call: &str,
    words: &mut Words<'_>,
    said: &mut Said,
) -> Result<(), RowFault> {
    if call != "offset" {
        return Err(RowFault::NotARow);
    }
    let subs = subs_of(alloc, words)?;
    said.number(u64::from(offset_in(subs.as_slice())))
}
