ghost use Rattle.std.specs.Prelude.{◌≡◌, ◌≤◌, length, Some, IfOk};
ghost use Rattle.octets.specs.Count.{counted};

use crate::file_id::{Failure, FileId, Operation, OutFault};
use crate::folder::Folder;
use crate::whole::{fill, write_all};
use octets::Name;
use std::alloc::Global;
use std::fs;
use std::io::{self, ErrorKind, Seek, SeekFrom};
use std::rt::Files;

/// A file that was read up to a place, and stays open there.
#[derive(Drop)]
struct Opened<R: Files> {
    name: Name,
    at: u64,
    file: R::File,
}

/// The files of the operating system. It tells no content: what a real file holds is outside of any proof.
///
/// The file that was read last stays open for its next piece. So a pipe can be read, and a file that is
/// replaced meanwhile is read as it was.
#[derive(Drop)]
pub struct RealFolder<R: Files + Drop> {
    rt: R,
    open: Option<Opened<R>>,
    handed: u64,
    faults: u64,
    last: Option<Failure>,
}

impl<R: Files + Drop> RealFolder<R> {
    /// The files that this runtime reaches.
    pub fn new(rt: R) -> Self {
        RealFolder {
            rt,
            open: None,
            handed: 0,
            faults: 0,
            last: None,
        }
    }

    /// Counts a call that failed.
    fn fail(&mut self, file: FileId, operation: Operation) -> OutFault
        ensures counted { self.new ≡ record self.old {
          faults = counted self.old.faults 1;
          last = Some (record { file = file; operation = operation });
        } }
        ensures failed { result ≡ OutFault.Failed }
    {
        self.faults = self.faults.saturating_add(1);
        self.last = Some(Failure { file, operation });
        OutFault::Failed
    }

    /// What is answered where the system refuses before anything changed: want of memory as such, and anything else as
    /// a call that failed.
    fn refuse(&mut self, kind: ErrorKind, file: FileId, operation: Operation) -> OutFault
        ensures failed { result ≡ OutFault.Failed
            → self.new ≡ record self.old {
              faults = counted self.old.faults 1;
              last = Some (record { file = file; operation = operation });
            } }
        ensures memory { result ≡ OutFault.NoMemory → self.new ≡ self.old }
    {
        match kind {
            ErrorKind::OutOfMemory => OutFault::NoMemory,
            _ => self.fail(file, operation),
        }
    }

    /// Reads a piece of the named file, which stays open behind it.
    fn read_piece(
        &mut self,
        alloc: Global,
        name: &str,
        offset: u64,
        buf: &mut [u8],
    ) -> io::Result<usize>
        ensures within { IfOk result (λ n. n ≤ length buf.old) }
        ensures counts { (self.new.handed ≡ self.old.handed) × (self.new.faults ≡ self.old.faults)
            × (self.new.last ≡ self.old.last) }
    {
        let mut open = self.opened(alloc, name, offset)?;
        let count = fill(&mut open.file, buf)?;
        open.at = open.at.saturating_add(count as u64);
        self.open = Some(open);
        Ok(count)
    }

    /// The named file, open at this place: the one that was read last, or one that is opened now.
    fn opened(&mut self, alloc: Global, name: &str, offset: u64) -> io::Result<Opened<R>>
        ensures { (self.new.handed ≡ self.old.handed) × (self.new.faults ≡ self.old.faults) × (self.new.last ≡ self.old.last) }
    {
        if let Some(open) = self.open.take() {
            if open.at == offset && open.name.as_str() == name {
                return Ok(open);
            }
        }
        let mut file = fs::open(&self.rt, name)?;
        if offset != 0 {
            file.seek(SeekFrom::Start(offset))?;
        }
        let Ok(name) = Name::of(alloc, name) else {
            return Err(io::Error::from(ErrorKind::OutOfMemory));
        };
        Ok(Opened {
            name,
            at: offset,
            file,
        })
    }
}

impl<R: Files + Drop> Folder for RealFolder<R> {
    ghost use Rattle.std.specs.Prelude.{None};

    ghost seen = { λ s. record { files = None; handed = s.handed; faults = s.faults; last = s.last } };

    fn read_at(
        &mut self,
        alloc: Global,
        file: FileId,
        name: &str,
        offset: u64,
        buf: &mut [u8],
    ) -> Result<usize, OutFault> {
        match self.read_piece(alloc, name, offset, buf) {
            Ok(count) => {
                self.handed = self.handed.saturating_add(count as u64);
                Ok(count)
            }
            Err(fault) => Err(self.refuse(fault.kind(), file, Operation::Read)),
        }
    }

    fn write(
        &mut self,
        _alloc: Global,
        file: FileId,
        name: &str,
        bytes: &[u8],
    ) -> Result<(), OutFault> {
        self.open = None;
        let mut target = match fs::create(&self.rt, name) {
            Ok(target) => target,
            // Nothing was written yet.
            Err(fault) => return Err(self.refuse(fault.kind(), file, Operation::Write)),
        };
        match write_all(&mut target, bytes) {
            Ok(()) => Ok(()),
            Err(_) => Err(self.fail(file, Operation::Write)),
        }
    }
}
