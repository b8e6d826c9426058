ghost use Rattle.std.specs.Prelude.{◌≡◌, ◌↔◌, IsTrue};
ghost use Rattle.pcap_files.specs.Written.{is_writable, IsWritable};

use octets::{Bytes, List};

/// The greatest number of seconds that a record has room for.
pub(crate) const MOST_SECONDS: u64 = 4_294_967_295;

/// The greatest time of a record that is written, in microseconds: all that its seconds hold, and then all that its
/// fraction holds.
const MOST_TIME: u64 = MOST_SECONDS * 1_000_000 + 4_294_967_295;

/// The most octets of a packet that a record can tell.
const MOST_OCTETS: usize = 4_294_967_295;

/// A packet of a capture, and when it was captured.
#[derive(Debug, Drop)]
pub struct Record {
    /// In microseconds.
    pub time: u64,
    /// The IP packet. It is empty where the captured frame isn't one of IPv4 or IPv6.
    pub bytes: Bytes,
}

impl Record {
    /// Whether a capture that is written can hold the record: `Writer::add` takes its time and its packet. The seconds of
    /// the time, the rest of it, and the packet's length have 32 bits each (draft-ietf-opsawg-pcap, section 5).
    pub fn is_writable(&self) -> bool
        ensures exact { result ≡ is_writable self.now }
        ensures both_ways { IsTrue result ↔ IsWritable self.now }
    {
        self.time <= MOST_TIME && self.bytes.as_slice().len() <= MOST_OCTETS
    }
}

/// The records of a capture in their order.
pub type Records = List<Record>;
