ghost use Rattle.std.specs.Prelude.{◌≡◌, ◌≤◌, ◌↔◌, length, Contains, Some, None, OnOk, OnErr, IfOk, IsErrOf};
ghost use Rattle.std.specs.FinMap as map;
ghost use Rattle.std.specs.Option.{option_copied};
ghost use Rattle.octets.specs.Count.{counted};
ghost use Rattle.outside.specs.Files.{with_file};

use crate::file_id::{Failure, FileId, Operation, OutFault};
use crate::folder::Folder;
use crate::store::{Store, copy_piece};
use octets::NoMemory;
use std::alloc::Global;

/// A folder in memory whose listed calls fail and change nothing but what is counted. Its reads are
/// counted from 0, and apart from them its writes. The read of a file that isn't there fails too.
#[derive(Drop)]
pub struct MemFolder {
    alloc: Global,
    store: Store,
    failing_reads: Vec<u64>,
    failing_writes: Vec<u64>,
    reads: u64,
    writes: u64,
    handed: u64,
    faults: u64,
    last: Option<Failure>,
}

impl MemFolder {
    ghost use Rattle.outside.specs.InMemory.{memory_files, memory_seen, with_memory_files, failing_reads, failing_writes, next_read, next_write};

    /// A folder without files, in which these reads and writes fail.
    pub fn new(alloc: Global, reads: Vec<u64>, writes: Vec<u64>) -> MemFolder
        ensures seen { memory_seen result ≡ record { files = Some map.empty; handed = 0; faults = 0; last = None } }
        ensures failing_reads { failing_reads result ≡ reads.items }
        ensures failing_writes { failing_writes result ≡ writes.items }
        ensures next { (next_read result ≡ 0) × (next_write result ≡ 0) }
    {
        MemFolder {
            alloc,
            store: Store::new(alloc),
            failing_reads: reads,
            failing_writes: writes,
            reads: 0,
            writes: 0,
            handed: 0,
            faults: 0,
            last: None,
        }
    }

    /// Counts a call that failed.
    fn fail(&mut self, file: FileId, operation: Operation) -> OutFault
        ensures counted { self.new ≡ record self.old {
          faults = counted self.old.faults 1;
          last = Some (record { file = file; operation = operation });
        } }
        ensures failed { result ≡ OutFault.Failed }
    {
        self.faults = self.faults.saturating_add(1);
        self.last = Some(Failure { file, operation });
        OutFault::Failed
    }

    /// Sets a file. It counts as no call.
    pub fn put_file(&mut self, name: &str, bytes: &[u8]) -> Result<(), NoMemory>
        ensures ok { OnOk result (self.new ≡ with_memory_files (with_file (memory_files self.old) name.now bytes.now) self.old) }
        ensures err { OnErr result (self.new ≡ self.old) }
    {
        self.store.put(self.alloc, name, bytes)
    }

    /// What a file holds, if it is there.
    pub fn file(&self, name: &str) -> Option<&[u8]>
        ensures { option_copied result ≡ map.get (memory_files self.now) name.now }
    {
        self.store.file(name)
    }
}

impl Folder for MemFolder {
    ghost use Rattle.std.specs.Prelude.{◌≡◌, ◌≤◌, ◌↔◌, length, drop, Contains, Some, OnErr, IfOk, IsErrOf};
    ghost use Rattle.outside.specs.Seen.{ReadEnds, WriteEnds};
    ghost use Rattle.outside.specs.Files.{content_of, FillsOrEnds};
    ghost use Rattle.outside.specs.InMemory.{memory_files, memory_seen, failing_writes, next_write, FailsToRead, CountsRead, CountsWrite};

    ghost seen = { memory_seen };

    fn read_at(
        &mut self,
        _alloc: Global,
        file: FileId,
        name: &str,
        offset: u64,
        buf: &mut [u8],
    ) -> Result<usize, OutFault>
        ensures within { IfOk result (λ n. n ≤ length buf.old) }
        ensures ends { ReadEnds (memory_seen self.old) (memory_seen self.new)
            (record { file = file; name = name.now; offset = offset }) buf.new result }
        // It fills the buffer or reaches the end of the file, and leaves the octets behind.
        ensures fills { IfOk result (λ n. FillsOrEnds (content_of (memory_files self.old) name.now) offset n (length buf.old)) }
        ensures rest { IfOk result (λ n. drop n buf.new ≡ drop n buf.old) }
        // It fails exactly where its number is listed or the file isn't there, and then leaves the buffer.
        ensures fails { IsErrOf result OutFault.Failed ↔ FailsToRead self.old name.now }
        ensures lacks_nothing { IsErrOf result OutFault.NoMemory → ⊥ }
        ensures unread { OnErr result (buf.new ≡ buf.old) }
        ensures counts { CountsRead self.old self.new }
    {
        let call = self.reads;
        self.reads = call.saturating_add(1);
        if self.failing_reads.contains(&call) {
            return Err(self.fail(file, Operation::Read));
        }
        match self.store.file(name) {
            Some(content) => {
                let count = copy_piece(content, offset, buf);
                self.handed = self.handed.saturating_add(count as u64);
                Ok(count)
            }
            None => Err(self.fail(file, Operation::Read)),
        }
    }

    fn write(
        &mut self,
        alloc: Global,
        file: FileId,
        name: &str,
        bytes: &[u8],
    ) -> Result<(), OutFault>
        ensures ends { WriteEnds (memory_seen self.old) (memory_seen self.new)
            (record { file = file; name = name.now; octets = bytes.now }) result }
        // It fails exactly where its number is listed, and then leaves all files.
        ensures fails { IsErrOf result OutFault.Failed ↔ Contains (failing_writes self.old) (next_write self.old) }
        ensures unwritten { OnErr result ((memory_seen self.new).files ≡ (memory_seen self.old).files) }
        ensures counts { CountsWrite self.old self.new }
    {
        let call = self.writes;
        self.writes = call.saturating_add(1);
        if self.failing_writes.contains(&call) {
            return Err(self.fail(file, Operation::Write));
        }
        self.store.put(alloc, name, bytes)?;
        Ok(())
    }
}
