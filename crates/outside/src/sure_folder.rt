ghost use Rattle.std.specs.Prelude.{◌≡◌, ◌++◌, Some, None, OnOk, OnErr};
ghost use Rattle.std.specs.FinMap as map;
ghost use Rattle.std.specs.Option.{option_copied};
ghost use Rattle.outside.specs.Files.{with_file};

use crate::file_id::{FileId, OutFault};
use crate::folder::Folder;
use crate::store::{Store, copy_piece};
use octets::NoMemory;
use std::alloc::Global;

/// A folder in memory that never fails. A file that isn't there reads as an empty one.
#[derive(Drop)]
pub struct SureFolder {
    alloc: Global,
    store: Store,
    handed: u64,
}

impl SureFolder {
    ghost use Rattle.outside.specs.InMemory.{sure_files, sure_seen, with_sure_files};

    /// A folder without files.
    pub fn new(alloc: Global) -> SureFolder
        ensures { sure_seen result ≡ record { files = Some map.empty; handed = 0; faults = 0; last = None } }
    {
        SureFolder {
            alloc,
            store: Store::new(alloc),
            handed: 0,
        }
    }

    /// Sets a file. It counts as no call.
    pub fn put_file(&mut self, name: &str, bytes: &[u8]) -> Result<(), NoMemory>
        ensures ok { OnOk result (self.new ≡ with_sure_files (with_file (sure_files self.old) name.now bytes.now) self.old) }
        ensures err { OnErr result (self.new ≡ self.old) }
    {
        self.store.put(self.alloc, name, bytes)
    }

    /// What a file holds, if it is there.
    pub fn file(&self, name: &str) -> Option<&[u8]>
        ensures { option_copied result ≡ map.get (sure_files self.now) name.now }
    {
        self.store.file(name)
    }
}

impl Folder for SureFolder {
    ghost use Rattle.std.specs.Prelude.{◌≡◌, ◌≤◌, length, drop, Some, None, IfOk, IsOk};
    ghost use Rattle.outside.specs.Files.{content_of, FillsOrEnds};
    ghost use Rattle.outside.specs.Seen.{ReadEnds};
    ghost use Rattle.outside.specs.InMemory.{sure_files, sure_seen};

    ghost seen = { sure_seen };

    fn read_at(
        &mut self,
        _alloc: Global,
        file: FileId,
        name: &str,
        offset: u64,
        buf: &mut [u8],
    ) -> Result<usize, OutFault>
        ensures within { IfOk result (λ n. n ≤ length buf.old) }
        ensures ends { ReadEnds (sure_seen self.old) (sure_seen self.new)
            (record { file = file; name = name.now; offset = offset }) buf.new result }
        // It fills the buffer or reaches the end of the file, and leaves the octets behind.
        ensures fills { IfOk result (λ n. FillsOrEnds (content_of (sure_files self.old) name.now) offset n (length buf.old)) }
        ensures rest { IfOk result (λ n. drop n buf.new ≡ drop n buf.old) }
        // It takes no memory either.
        ensures answers { IsOk result }
    {
        let content = self.store.file(name).unwrap_or(&[]);
        let count = copy_piece(content, offset, buf);
        self.handed = self.handed.saturating_add(count as u64);
        Ok(count)
    }

    fn write(
        &mut self,
        alloc: Global,
        _file: FileId,
        name: &str,
        bytes: &[u8],
    ) -> Result<(), OutFault> {
        self.store.put(alloc, name, bytes)?;
        Ok(())
    }
}
