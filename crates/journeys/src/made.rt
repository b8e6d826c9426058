use crate::Stand;
use domain_core::HopNote;
use hops::Hop;
use octets::List;

/// What all hops of one record have in common.
#[derive(Clone, Copy, Debug)]
pub struct Taking {
    /// The record's number in the script, from 0.
    pub rec: u32,
    /// Its time, in microseconds.
    pub time: u64,
    /// The number of changes before it.
    pub seen: u32,
}

/// A hop that was made: where its packet stood, what a trace tells of it, and what it sent and dropped. The packet's octets are those
/// of an out of an earlier hop, or the record's.
#[derive(Debug, Drop)]
pub struct MadeHop {
    pub stand: Stand,
    pub note: HopNote,
    pub hop: Hop,
}

/// The hops of a record, first in first out.
pub type MadeHops = List<MadeHop>;
