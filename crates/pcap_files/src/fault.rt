ghost use Rattle.std.specs.Prelude.{◌≡◌};
ghost use Rattle.pcap_files.specs.declared.fault.CaptureFault.TheVariants.{NoMemory as OutOfMemory};

use octets::NoMemory;
use std::alloc::{AllocError, AllocFailed};
use thiserror::Error;

/// Why octets are no capture: the first fault from the left. Records are counted from 0.
#[derive(Clone, Copy, Debug, PartialEq, Eq, Hash, Error)]
pub enum CaptureFault {
    /// Fewer octets than a file header, or another magic number than those of classic pcap.
    #[error("not a pcap file")]
    NotPcap,
    /// The version isn't 2.4. The number is the major version times 65536 plus the minor one.
    #[error("pcap version {}.{}", .0 / 65536, .0 % 65536)]
    BadVersion(u32),
    /// The link type is neither Ethernet nor raw IP.
    #[error("link type {0}")]
    BadLink(u32),
    /// This record is incomplete.
    #[error("record {0} is incomplete")]
    Cut(u32),
    /// Octets stand after as many records as there is room for.
    #[error("too many records")]
    TooManyRecords,
    /// Memory ran out.
    #[error("out of memory")]
    NoMemory,
}

impl From<NoMemory> for CaptureFault {
    ghost from_gives = { λ _ e. e ≡ OutOfMemory };

    fn from(_: NoMemory) -> Self {
        CaptureFault::NoMemory
    }
}

impl From<AllocError> for CaptureFault {
    ghost from_gives = { λ _ e. e ≡ OutOfMemory };

    fn from(_: AllocError) -> Self {
        CaptureFault::NoMemory
    }
}

impl<T: Drop> From<AllocFailed<T>> for CaptureFault {
    ghost from_gives = { λ _ e. e ≡ OutOfMemory };

    fn from(_: AllocFailed<T>) -> Self {
        CaptureFault::NoMemory
    }
}
