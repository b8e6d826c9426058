ghost use Rattle.std.specs.Prelude.{◌≤◌, length, IfOk};
ghost use Rattle.outside.specs.Seen.{FolderSeen, ReadEnds, WriteEnds};

use crate::file_id::{FileId, OutFault};
use std::alloc::Global;

/// A folder of files. `file` says which file of the command is meant, and is told back with the last failure; the
/// name alone says which file is touched.
pub trait Folder {
    /// What is seen of it so far: what each file holds, where it tells that, how many octets were handed out by reads that
    /// answered Ok, how many calls failed, and the last of these.
    ghost seen: { Self → FolderSeen };

    /// Reads octets of a file from an offset on, at most the buffer's length. Fewer may come than there
    /// are, but none only at the end of the file. What the buffer holds behind them may be anything. A file
    /// that isn't there has no octets, or fails.
    ///
    /// `Failed` comes only where the count of faults rose. `NoMemory` changed nothing.
    fn read_at(
        &mut self,
        alloc: Global,
        file: FileId,
        name: &str,
        offset: u64,
        buf: &mut [u8],
    ) -> Result<usize, OutFault>
        ensures within { IfOk result (λ n. n ≤ length buf.old) }
        ensures ends { ReadEnds (seen self.old) (seen self.new)
            (record { file = file; name = name.now; offset = offset }) buf.new result };

    /// Makes the named file hold exactly these octets. After a failure that file may hold anything.
    ///
    /// `Failed` comes only where the count of faults rose. `NoMemory` changed nothing.
    fn write(
        &mut self,
        alloc: Global,
        file: FileId,
        name: &str,
        bytes: &[u8],
    ) -> Result<(), OutFault>
        ensures ends { WriteEnds (seen self.old) (seen self.new)
            (record { file = file; name = name.now; octets = bytes.now }) result };
}
