use octets::{
    Addr4, Addr6, Bytes, NoMemory, Prefix4, Prefix6, Proto, read_addr4, read_addr6, read_prefix4,
    read_prefix6,
};
use std::alloc::{AllocError, Global};

/// Why a row gives no answer.
#[derive(Clone, Copy, Debug, PartialEq, Eq)]
pub enum RowFault {
    /// Its words aren't those of a call.
    NotARow,
    /// Memory ran out while it was read or its answer was said.
    NoMemory,
}

impl From<NoMemory> for RowFault {
    fn from(_: NoMemory) -> Self {
        RowFault::NoMemory
    }
}

impl From<AllocError> for RowFault {
    fn from(_: AllocError) -> Self {
        RowFault::NoMemory
    }
}

/// The words of a call, which are taken from the left. One space stands between two words.
#[derive(Clone, Copy, Debug)]
pub struct Words<'a> {
    rest: &'a str,
}

impl<'a> Words<'a> {
    /// The words of this text.
    pub fn of(text: &'a str) -> Words<'a> {
        Words { rest: text }
    }

    /// Whether no word is left.
    pub fn is_done(&self) -> bool {
        self.rest.is_empty()
    }

    /// The next word.
    pub fn word(&mut self) -> Result<&'a str, RowFault> {
        if self.rest.is_empty() {
            return Err(RowFault::NotARow);
        }
        match self.rest.split_once(' ') {
            Some((word, rest)) => {
                self.rest = rest;
                Ok(word)
            }
            None => {
                let word = self.rest;
                self.rest = "";
                Ok(word)
            }
        }
    }

    /// The next word, which is a decimal number below 2^64.
    pub fn number(&mut self) -> Result<u64, RowFault> {
        let word = self.word()?;
        word.parse::<u64>().map_err(|_| RowFault::NotARow)
    }

    /// The next word, which is a decimal number below 2^32.
    pub fn thirty_two(&mut self) -> Result<u32, RowFault> {
        let word = self.word()?;
        word.parse::<u32>().map_err(|_| RowFault::NotARow)
    }

    /// The next word, which is a decimal number below 2^16.
    pub fn sixteen(&mut self) -> Result<u16, RowFault> {
        let word = self.word()?;
        word.parse::<u16>().map_err(|_| RowFault::NotARow)
    }

    /// The next word, which is a decimal number below 2^8.
    pub fn eight(&mut self) -> Result<u8, RowFault> {
        let word = self.word()?;
        word.parse::<u8>().map_err(|_| RowFault::NotARow)
    }

    /// The next word, which is `yes` or `no`.
    pub fn flag(&mut self) -> Result<bool, RowFault> {
        match self.word()? {
            "yes" => Ok(true),
            "no" => Ok(false),
            _ => Err(RowFault::NotARow),
        }
    }

    /// The next word, which is `tcp`, `udp` or `icmp`.
    pub fn proto(&mut self) -> Result<Proto, RowFault> {
        match self.word()? {
            "tcp" => Ok(Proto::Tcp),
            "udp" => Ok(Proto::Udp),
            "icmp" => Ok(Proto::Icmp),
            _ => Err(RowFault::NotARow),
        }
    }

    /// The next word, which is octets in hexadecimal digits, or `-` for none.
    pub fn octets(&mut self, alloc: Global) -> Result<Bytes, RowFault> {
        let word = self.word()?;
        let mut octets = Bytes::new(alloc);
        if word == "-" {
            return Ok(octets);
        }
        match hex::decode(alloc, word.as_bytes()) {
            Ok(decoded) => {
                octets.extend(&decoded)?;
                Ok(octets)
            }
            Err(_) => Err(RowFault::NotARow),
        }
    }

    /// The next word, which is an IPv4 address.
    pub fn addr4(&mut self) -> Result<Addr4, RowFault> {
        let word = self.word()?;
        read_addr4(word.as_bytes()).map_err(|_| RowFault::NotARow)
    }

    /// The next word, which is an IPv6 address.
    pub fn addr6(&mut self) -> Result<Addr6, RowFault> {
        let word = self.word()?;
        read_addr6(word.as_bytes()).map_err(|_| RowFault::NotARow)
    }

    /// The next word, which is an IPv4 prefix.
    pub fn prefix4(&mut self) -> Result<Prefix4, RowFault> {
        let word = self.word()?;
        read_prefix4(word.as_bytes()).map_err(|_| RowFault::NotARow)
    }

    /// The next word, which is an IPv6 prefix.
    pub fn prefix6(&mut self) -> Result<Prefix6, RowFault> {
        let word = self.word()?;
        read_prefix6(word.as_bytes()).map_err(|_| RowFault::NotARow)
    }
}
