use crate::file_id::OutFault;
use crate::sink::Sink;
use crate::whole::write_all;
use std::alloc::Global;
use std::io::{self, Write};

/// Standard output. It tells no content.
#[derive(Drop)]
pub struct RealSink<R: Print + Drop> {
    rt: R,
    faults: u64,
}

impl<R: Print + Drop> RealSink<R> {
    /// The standard output that this runtime reaches.
    pub fn new(rt: R) -> Self {
        RealSink { rt, faults: 0 }
    }
}

/// Writes all of the octets to standard output.
fn write_out<R: Print>(rt: &R, bytes: &[u8]) -> io::Result<()> {
    let mut out = io::writer(rt);
    write_all(&mut out, bytes)?;
    out.flush()
}

impl<R: Print + Drop> Sink for RealSink<R> {
    ghost use Rattle.std.specs.Prelude.{None};

    ghost seen = { λ s. record { written = None; faults = s.faults } };

    fn put(&mut self, _alloc: Global, bytes: &[u8]) -> Result<(), OutFault> {
        match write_out(&self.rt, bytes) {
            Ok(()) => Ok(()),
            Err(_) => {
                self.faults = self.faults.saturating_add(1);
                Err(OutFault::Failed)
            }
        }
    }
}
