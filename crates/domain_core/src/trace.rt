ghost use Rattle.std.specs.Prelude.{IsTrue};
ghost use Rattle.domain_core.specs.Form.{has_form};

use crate::{EdgeHistories, Journey, StripeHistories};
use octets::List;

/// One item of a script as a trace tells of it.
#[derive(Debug, Drop)]
pub enum TraceItem {
    /// A record, with its hops.
    Record(Journey),
    /// The change of this number, from 1, that this worker published while others worked.
    Live { number: u32, worker: u32 },
    /// The change of this number, from 1, for which all workers waited.
    Still { number: u32 },
}

/// All items of a trace, in the order of the script.
pub type TraceItems = List<TraceItem>;

/// What a replay decided: by how many workers, what became of each item of the script, and what each edge and each
/// stripe of the relay answered. Its text has the form of a trace: numbers fit their places, there are 1 to 16 workers,
/// at most 256 edges and 16 stripes, and parcels have no octets.
#[derive(Debug, Drop)]
pub struct Trace {
    /// How many workers there were, 1 to 16.
    pub workers: u32,
    pub items: TraceItems,
    pub edges: EdgeHistories,
    pub stripes: StripeHistories,
    pub ghost form: { IsTrue (has_form workers items edges stripes) },
}
