//! Where the fields before a record's captured octets stand (draft-ietf-opsawg-pcap, section 5).

/// The seconds of the time.
pub(crate) const SECONDS: usize = 0;
/// The fraction of a second.
pub(crate) const FRACTION: usize = 4;
/// How many octets were captured.
pub(crate) const CAPTURED: usize = 8;
/// How many the packet had. It is written, and isn't looked at.
pub(crate) const ORIGINAL: usize = 12;
/// The octets before the captured ones.
pub(crate) const ENTRY_LEN: usize = 16;
