ghost use Rattle.std.specs.Prelude.{◌≡◌, [], ◌++◌, Some};

use crate::file_id::OutFault;
use crate::sink::Sink;
use octets::Bytes;
use std::alloc::Global;

/// A sink in memory that never fails.
#[derive(Drop)]
pub struct SureSink {
    text: Bytes,
}

impl SureSink {
    ghost use Rattle.outside.specs.InMemory.{sure_text, sure_sink_seen};

    /// A sink without text.
    pub fn new(alloc: Global) -> SureSink
        ensures { sure_sink_seen result ≡ record { written = Some []; faults = 0 } }
    {
        SureSink {
            text: Bytes::new(alloc),
        }
    }

    /// All that was put.
    pub fn as_slice(&self) -> &[u8]
        ensures { result.now ≡ sure_text self.now }
    {
        self.text.as_slice()
    }
}

impl Sink for SureSink {
    ghost use Rattle.outside.specs.InMemory.{sure_sink_seen};

    ghost seen = { sure_sink_seen };

    fn put(&mut self, _alloc: Global, bytes: &[u8]) -> Result<(), OutFault> {
        self.text.extend(bytes)?;
        Ok(())
    }
}
