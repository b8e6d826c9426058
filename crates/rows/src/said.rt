use crate::words::RowFault;
use octets::{Addr4, Addr6, Prefix4, Prefix6};
use std::alloc::Global;
use std::fmt::{Debug, Write};

/// What a call answered, as words with one space between two of them.
#[derive(Debug, Drop)]
pub struct Said {
    text: String,
}

impl Said {
    /// No words.
    pub fn new(alloc: Global) -> Said {
        Said {
            text: String::new(alloc),
        }
    }

    /// The words.
    pub fn as_str(&self) -> &str {
        self.text.as_str()
    }

    /// Makes place for one word more.
    fn begin_word(&mut self) -> Result<(), RowFault> {
        if !self.text.is_empty() {
            self.text.push(' ')?;
        }
        Ok(())
    }

    /// Says a word.
    pub fn word(&mut self, word: &str) -> Result<(), RowFault> {
        self.begin_word()?;
        self.text.push_str(word)?;
        Ok(())
    }

    /// Says a number in decimal digits.
    pub fn number(&mut self, number: u64) -> Result<(), RowFault> {
        self.begin_word()?;
        write!(self.text, "{number}").map_err(|_| RowFault::NoMemory)
    }

    /// Says `yes` or `no`.
    pub fn flag(&mut self, flag: bool) -> Result<(), RowFault> {
        self.word(if flag { "yes" } else { "no" })
    }

    /// Says a value by its own words, as a variant's name.
    pub fn shown<T: Debug>(&mut self, value: &T) -> Result<(), RowFault> {
        self.begin_word()?;
        write!(self.text, "{value:?}").map_err(|_| RowFault::NoMemory)
    }

    /// Says octets in hexadecimal digits, and `-` where there are none.
    pub fn octets(&mut self, octets: &[u8]) -> Result<(), RowFault> {
        if octets.is_empty() {
            return self.word("-");
        }
        self.begin_word()?;
        for octet in octets {
            write!(self.text, "{octet:02x}").map_err(|_| RowFault::NoMemory)?;
        }
        Ok(())
    }

    /// Says octets that are text as they stand, and in hexadecimal digits where they aren't.
    pub fn text(&mut self, octets: &[u8]) -> Result<(), RowFault> {
        match std::str::from_utf8(octets) {
            Ok(text) => self.word(text),
            Err(_) => self.octets(octets),
        }
    }

    /// Says an IPv4 address.
    pub fn addr4(&mut self, alloc: Global, addr: Addr4) -> Result<(), RowFault> {
        let text = addr.text(alloc)?;
        self.text(text.as_slice())
    }

    /// Says an IPv6 address.
    pub fn addr6(&mut self, alloc: Global, addr: Addr6) -> Result<(), RowFault> {
        let text = addr.text(alloc)?;
        self.text(text.as_slice())
    }

    /// Says an IPv4 prefix.
    pub fn prefix4(&mut self, alloc: Global, prefix: &Prefix4) -> Result<(), RowFault> {
        let text = prefix.text(alloc)?;
        self.text(text.as_slice())
    }

    /// Says an IPv6 prefix.
    pub fn prefix6(&mut self, alloc: Global, prefix: &Prefix6) -> Result<(), RowFault> {
        let text = prefix.text(alloc)?;
        self.text(text.as_slice())
    }
}
