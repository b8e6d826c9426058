ghost use Rattle.std.specs.Prelude.{◌≡◌, [], Some};

use crate::file_id::OutFault;
use crate::sink::Sink;
use octets::Bytes;
use std::alloc::Global;

/// A sink in memory whose listed calls, counted from 0, fail and add nothing.
#[derive(Drop)]
pub struct MemSink {
    text: Bytes,
    failing_puts: Vec<u64>,
    puts: u64,
    faults: u64,
}

impl MemSink {
    ghost use Rattle.outside.specs.InMemory.{memory_text, memory_sink_seen, failing_puts, next_put};

    /// A sink without text, in which these calls fail.
    pub fn new(alloc: Global, puts: Vec<u64>) -> MemSink
        ensures seen { memory_sink_seen result ≡ record { written = Some []; faults = 0 } }
        ensures failing { failing_puts result ≡ puts.items }
        ensures next { next_put result ≡ 0 }
    {
        MemSink {
            text: Bytes::new(alloc),
            failing_puts: puts,
            puts: 0,
            faults: 0,
        }
    }

    /// All that was put.
    pub fn as_slice(&self) -> &[u8]
        ensures { result.now ≡ memory_text self.now }
    {
        self.text.as_slice()
    }
}

impl Sink for MemSink {
    ghost use Rattle.std.specs.Prelude.{◌≡◌, ◌↔◌, Contains, Some, OnErr, IsErrOf};
    ghost use Rattle.outside.specs.Seen.{PutEnds};
    ghost use Rattle.outside.specs.InMemory.{memory_text, memory_sink_seen, failing_puts, next_put, CountsPut};

    ghost seen = { memory_sink_seen };

    fn put(&mut self, _alloc: Global, bytes: &[u8]) -> Result<(), OutFault>
        ensures ends { PutEnds (memory_sink_seen self.old) (memory_sink_seen self.new) bytes.now result }
        // It fails exactly where its number is listed, and then adds nothing.
        ensures fails { IsErrOf result OutFault.Failed ↔ Contains (failing_puts self.old) (next_put self.old) }
        ensures unwritten { OnErr result (memory_text self.new ≡ memory_text self.old) }
        ensures counts { CountsPut self.old self.new }
    {
        let call = self.puts;
        self.puts = call.saturating_add(1);
        if self.failing_puts.contains(&call) {
            self.faults = self.faults.saturating_add(1);
            return Err(OutFault::Failed);
        }
        self.text.extend(bytes)?;
        Ok(())
    }
}
