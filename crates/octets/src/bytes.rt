ghost use Rattle.std.specs.Prelude.{◌≡◌, ◌≤◌, ◌+◌, List, ℕ, [], ◌∷◌, ◌++◌, length, IsOk, OnOk, OnErr, IfOk};
ghost use Rattle.octets.specs.Field.{with_word};

use crate::NoMemory;
use crate::field::put_word;
use std::alloc::Global;
use std::marker::Model;

/// Octets in memory. A contract sees the list of them.
#[derive(Debug, Drop)]
pub struct Bytes {
    octets: Vec<u8>,
}

impl Model for Bytes {
    ghost Value = { List ℕ };

    ghost view = { λ b. b.octets.items };
}

impl Bytes {
    /// No octets.
    pub fn new(alloc: Global) -> Bytes
        ensures { result ≡ [] }
    {
        Bytes {
            octets: Vec::new(alloc),
        }
    }

    /// No octets, in memory that has room for so many.
    pub fn with_room(alloc: Global, room: usize) -> Result<Bytes, NoMemory>
        ensures { IfOk result (λ made. made ≡ []) }
    {
        Ok(Bytes {
            octets: Vec::with_capacity(alloc, room)?,
        })
    }

    /// A copy of these octets, in as much memory as they need.
    pub fn of(alloc: Global, octets: &[u8]) -> Result<Bytes, NoMemory>
        ensures { IfOk result (λ made. made ≡ octets.now) }
    {
        Ok(Bytes {
            octets: Vec::from_slice(alloc, octets)?,
        })
    }

    /// These octets, which take no more memory.
    pub fn from_vec(octets: Vec<u8>) -> Bytes
        ensures { result ≡ octets.items }
    {
        Bytes { octets }
    }

    /// Adds one octet at the end.
    pub fn push(&mut self, octet: u8) -> Result<(), NoMemory>
        ensures ok { OnOk result (self.new ≡ self.old ++ octet ∷ []) }
        ensures err { OnErr result (self.new ≡ self.old) }
    {
        self.octets.push(octet)?;
        Ok(())
    }

    /// Adds octets at the end.
    pub fn extend(&mut self, octets: &[u8]) -> Result<(), NoMemory>
        ensures ok { OnOk result (self.new ≡ self.old ++ octets.now) }
        ensures err { OnErr result (self.new ≡ self.old) }
    {
        self.octets.extend_from_slice(octets)?;
        Ok(())
    }

    /// Writes a number of 16 bits over the two octets at this place, the high octet first.
    pub fn set_word(&mut self, at: usize, number: u16)
        requires { at + 2 ≤ length self.old }
        ensures written { self.new ≡ with_word at number self.old }
        ensures len { length self.new ≡ length self.old }
    {
        put_word(&mut self.octets, at, number);
    }

    /// The same octets once more. A copy of no octets takes no memory.
    pub fn copy(&self, alloc: Global) -> Result<Bytes, NoMemory>
        ensures same { IfOk result (λ copied. copied ≡ self.now) }
        ensures empty { self.now ≡ [] → IsOk result }
    {
        if self.octets.is_empty() {
            return Ok(Bytes::new(alloc));
        }
        Ok(Bytes {
            octets: Vec::from_slice(alloc, &self.octets)?,
        })
    }

    /// The octets.
    pub fn as_slice(&self) -> &[u8]
        ensures { result.now ≡ self.now }
    {
        &self.octets
    }
}
