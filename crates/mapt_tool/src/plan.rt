ghost use Rattle.std.specs.Prelude.{◌≡◌, ◌++◌, ◌∷◌, [], List, ℕ, OnOk, OnErr};

use octets::{Bytes, Name, NoMemory};
use outside::FileId;
use std::alloc::Global;
use std::marker::Model;

/// A file that a command writes.
#[derive(Debug, Drop)]
pub(crate) struct FileWrite {
    pub file: FileId,
    pub name: Name,
    pub bytes: Bytes,
}

/// All that a command does to the outside: files in their order, and then text for the sink.
#[derive(Drop)]
pub(crate) struct Plan {
    writes: Vec<FileWrite>,
    text: Bytes,
}

impl Model for Plan {
    ghost use Rattle.mapt_tool.specs.Planned.{Planned};

    ghost Value = { Planned };

    ghost view = { λ p. record { writes = p.writes.items; text = p.text } };
}

impl Plan {
    ghost use Rattle.mapt_tool.specs.Planned.{nothing_planned};

    /// Nothing.
    pub(crate) fn new(alloc: Global) -> Plan
        ensures { result ≡ nothing_planned }
    {
        Plan {
            writes: Vec::new(alloc),
            text: Bytes::new(alloc),
        }
    }

    /// One more file, after the others.
    pub(crate) fn write(&mut self, file: FileWrite) -> Result<(), NoMemory>
        ensures ok { OnOk result (self.new ≡ record self.old { writes = self.old.writes ++ file ∷ [] }) }
        ensures err { OnErr result (self.new ≡ self.old) }
    {
        self.writes.push(file)?;
        Ok(())
    }

    /// More text, after the other.
    pub(crate) fn say(&mut self, text: &[u8]) -> Result<(), NoMemory>
        ensures ok { OnOk result (self.new ≡ record self.old { text = self.old.text ++ text.now }) }
        ensures err { OnErr result (self.new ≡ self.old) }
    {
        self.text.extend(text)
    }

    /// The files.
    pub(crate) fn writes(&self) -> &[FileWrite]
        ensures { result.now ≡ self.now.writes }
    {
        &self.writes
    }

    /// The text.
    pub(crate) fn text(&self) -> &[u8]
        ensures { result.now ≡ self.now.text }
    {
        self.text.as_slice()
    }
}
