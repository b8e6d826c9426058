ghost use Rattle.std.specs.Prelude.{◌≡◌, ◌≤◌, length, drop, Some, None, OnOk, OnErr};
ghost use Rattle.std.specs.Ordering.{nat_cmp, is_eq};
ghost use Rattle.std.specs.Cmp.Lexicographic.{slice_cmp};
ghost use Rattle.outside.specs.Files.{IsPieceOf, FillsOrEnds};

use octets::{Bytes, Name, NoMemory};
use std::alloc::Global;
use std::cmp::Ordering;
use std::collections::VecDeque;
use std::marker::Model;

/// Files in memory: a log of what was stored, the newest first. A contract sees the finite map of them.
#[derive(Drop)]
pub(crate) struct Store {
    log: VecDeque<(Name, Bytes)>,
}

impl Model for Store {
    ghost use Rattle.std.specs.Coded.{coded_ℕ, coded_list};
    ghost use Rattle.std.specs.FinMap as map;
    ghost use Rattle.outside.specs.Files.{Files};

    ghost Value = { Files };

    ghost coded = { map.code (coded_list coded_ℕ) (coded_list coded_ℕ) };

    ghost view = { λ s. map.from_entries s.log.items };
}

impl Store {
    ghost use Rattle.std.specs.FinMap as map;
    ghost use Rattle.outside.specs.Files.{with_file};
    ghost use Rattle.std.specs.Option.{option_copied};

    /// No files.
    pub(crate) fn new(alloc: Global) -> Store
        ensures { result ≡ map.empty }
    {
        Store {
            log: VecDeque::new(alloc),
        }
    }

    /// What the file holds, if it is there.
    pub(crate) fn file(&self, name: &str) -> Option<&[u8]>
        ensures { option_copied result ≡ map.get self.now name.now }
    {
        for (stored, bytes) in &self.log {
            if is_named(stored, name) {
                return Some(bytes.as_slice());
            }
        }
        None
    }

    /// Makes the file hold these octets.
    pub(crate) fn put(&mut self, alloc: Global, name: &str, bytes: &[u8]) -> Result<(), NoMemory>
        ensures ok { OnOk result (self.new ≡ with_file self.old name.now bytes.now) }
        ensures err { OnErr result (self.new ≡ self.old) }
    {
        let name = Name::of(alloc, name)?;
        let mut copied = Bytes::new(alloc);
        copied.extend(bytes)?;
        self.log.push_front((name, copied))?;
        Ok(())
    }
}

/// Whether a stored name is the one that is looked for.
fn is_named(stored: &Name, name: &str) -> bool
    ensures { result ≡ is_eq (slice_cmp nat_cmp name.now stored.now) }
{
    matches!(
        name.as_bytes().cmp(stored.as_str().as_bytes()),
        Ordering::Equal
    )
}

/// Copies what a file holds from an offset on to the front of a buffer, as much as there is room for, and answers how
/// many octets. What stands behind them in the buffer stays.
pub(crate) fn copy_piece(content: &[u8], offset: u64, buf: &mut [u8]) -> usize
    ensures within { result ≤ length buf.old }
    ensures piece { IsPieceOf content.now offset result buf.new }
    ensures fills { FillsOrEnds content.now offset result (length buf.old) }
    ensures rest { drop result buf.new ≡ drop result buf.old }
{
    let len = content.len();
    if offset >= len as u64 {
        return 0;
    }
    let rest = &content[offset as usize..];
    let count = rest.len().min(buf.len());
    buf[..count].copy_from_slice(&rest[..count]);
    count
}
