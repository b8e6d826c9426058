ghost use Rattle.std.specs.Prelude.{◌≡◌, IsOk, IfOk};
ghost use Rattle.frag_table.specs.Copied.{AskHasNoOctets};

use crate::FragKey;
use l4_headers::Ports;
use octets::{Bytes, NoMemory};
use std::alloc::Global;

/// What a node asks of its notes: a fragment that it took.
#[derive(Debug, Drop)]
pub enum FragAsk {
    /// The first fragment of a packet, with the ports that stand in it.
    First(FragKey, Ports),
    /// A later fragment, with its octets as the node took it.
    Later(FragKey, Bytes),
}

impl FragAsk {
    /// The same ask once more. An ask without octets takes no memory.
    pub fn copy(&self, alloc: Global) -> Result<FragAsk, NoMemory>
        ensures same { IfOk result (λ copied. copied ≡ self.now) }
        ensures without_octets { AskHasNoOctets self.now → IsOk result }
    {
        match self {
            FragAsk::First(key, ports) => Ok(FragAsk::First(*key, *ports)),
            FragAsk::Later(key, octets) => Ok(FragAsk::Later(*key, octets.copy(alloc)?)),
        }
    }
}
