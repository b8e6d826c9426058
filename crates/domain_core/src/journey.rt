ghost use Rattle.std.specs.Prelude.{◌≡◌};
ghost use Rattle.domain_core.specs.Form.{relay};

use octets::List;

/// The number of the relay among nodes. Those of edges are less.
pub const RELAY: u32 = 256;

/// Law: the relay has the number that the text of a trace may name last.
pub fn the_relay_is_numbered_behind_all_edges()
    ensures { RELAY ≡ relay }
{}

/// What a trace tells of one hop.
#[derive(Clone, Copy, Debug, PartialEq, Eq, Hash)]
pub struct HopNote {
    /// The node that took the packet: an edge's number in the order of the setup, or `RELAY`.
    pub node: u32,
    /// The generation that the worker had entered.
    pub seen: u32,
    /// The stripe of the relay in whose history the hop's entry stands, from 0 to 15.
    pub stripe: Option<u32>,
    /// The place of the hop's entry in the history of its edge or stripe, from 0. None where nothing was asked.
    pub place: Option<u64>,
}

/// The hops of a record, first in first out.
pub type HopNotes = List<HopNote>;

/// What a trace tells of one record: the worker that took it, and its hops.
#[derive(Debug, Drop)]
pub struct Journey {
    /// The record's number in the script, from 0.
    pub rec: u32,
    pub worker: u32,
    pub hops: HopNotes,
}
