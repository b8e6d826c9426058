//! Texts that are made of parts. A text is one word of parts with `&` between two. A part is `$NAME` for one that has a name, `0x` and
//! hexadecimal digits, `-` for nothing, or is written out; `COUNT*PART` stands for so many of a part.
//!
//! `part NAME TEXT` gives a text a name.

use crate::spelling::push_read;
use octets::Bytes;
use rows::{RowFault, Said, Words};
use std::alloc::Global;

/// A text with a name.
#[derive(Debug, Drop)]
struct Named {
    name: Bytes,
    text: Bytes,
}

/// The texts that have names.
#[derive(Debug, Drop)]
pub struct Parts {
    named: Vec<Named>,
}

impl Parts {
    pub fn new(alloc: Global) -> Parts {
        Parts {
            named: Vec::new(alloc),
        }
    }

    /// The text with this name.
    fn named(&self, name: &str) -> Result<&[u8], RowFault> {
        for named in &self.named {
            if named.name.as_slice() == name.as_bytes() {
                return Ok(named.text.as_slice());
            }
        }
        Err(RowFault::NotARow)
    }

    /// Adds a part, written once.
    fn push_one(&self, alloc: Global, text: &mut Bytes, part: &str) -> Result<(), RowFault> {
        if part == "-" {
            return Ok(());
        }
        if let Some(name) = part.strip_prefix("$") {
            text.extend(self.named(name)?)?;
            return Ok(());
        }
        if let Some(digits) = part.strip_prefix("0x") {
            let octets = Words::of(digits).octets(alloc)?;
            text.extend(octets.as_slice())?;
            return Ok(());
        }
        push_read(text, part)?;
        Ok(())
    }

    /// Adds a part, as often as it says.
    fn push_part(&self, alloc: Global, text: &mut Bytes, part: &str) -> Result<(), RowFault> {
        if let Some((count, repeated)) = part.split_once('*') {
            if let Ok(count) = count.parse::<u32>() {
                for _ in 0..count {
                    self.push_one(alloc, text, repeated)?;
                }
                return Ok(());
            }
        }
        self.push_one(alloc, text, part)
    }

    /// The text of the next word.
    pub fn text(&self, alloc: Global, words: &mut Words<'_>) -> Result<Bytes, RowFault> {
        let mut text = Bytes::new(alloc);
        for part in words.word()?.split('&') {
            self.push_part(alloc, &mut text, part)?;
        }
        Ok(text)
    }

    /// Gives a text a name, and says how many octets it has.
    pub fn answer(
        &mut self,
        alloc: Global,
        verb: &str,
        words: &mut Words<'_>,
        said: &mut Said,
    ) -> Result<(), RowFault> {
        if verb != "part" {
            return Err(RowFault::NotARow);
        }
        let mut name = Bytes::new(alloc);
        name.extend(words.word()?.as_bytes())?;
        let text = self.text(alloc, words)?;
        said.number(text.as_slice().len() as u64)?;
        self.named
            .push(Named { name, text })
            .map_err(|_| RowFault::NoMemory)
    }
}
