use frag_table::FragAnswer;
use nat_model::{Answer, Mark, Who};
use octets::List;

/// One entry of an edge's history. The parcels of its answer have their places alone, and no octets.
#[derive(Debug, Drop)]
pub struct EdgeNote {
    pub mark: Mark,
    pub answer: Answer,
}

/// The entries of an edge's history, each at its place.
pub type EdgeNotes = List<EdgeNote>;

/// What a trace tells of one edge.
#[derive(Debug, Drop)]
pub struct EdgeHistory {
    pub notes: EdgeNotes,
}

/// The histories of all edges, in the order of the setup.
pub type EdgeHistories = List<EdgeHistory>;

/// One entry of a stripe's history. The parcels of its answer have their places alone, and no octets.
#[derive(Debug, Drop)]
pub struct StripeNote {
    pub who: Who,
    pub answer: FragAnswer,
}

/// The entries of a stripe's history, each at its place.
pub type StripeNotes = List<StripeNote>;

/// What a trace tells of one stripe of the relay.
#[derive(Debug, Drop)]
pub struct StripeHistory {
    pub notes: StripeNotes,
}

/// The histories of the relay's 16 stripes, in their order.
pub type StripeHistories = List<StripeHistory>;
