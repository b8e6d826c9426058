ghost use Rattle.outside.specs.Seen.{SinkSeen, PutEnds};

use crate::file_id::OutFault;
use std::alloc::Global;

/// Where text goes, as the terminal.
pub trait Sink {
    /// What is seen of it so far: all octets that were put, where it tells them, and how many calls failed.
    ghost seen: { Self → SinkSeen };

    /// Adds octets at the end. After a failure a beginning of them may have been added.
    ///
    /// `Failed` comes only where the count of faults rose. `NoMemory` changed nothing.
    fn put(&mut self, alloc: Global, bytes: &[u8]) -> Result<(), OutFault>
        ensures ends { PutEnds (seen self.old) (seen self.new) bytes.now result };
}
