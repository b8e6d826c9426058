//! The domain as plain values: what one hop, one record, one edge, one stripe and a whole replay leave in a trace.
#![tactic(auto)]

mod equal;
mod history;
mod journey;
mod trace;

pub use equal::equal_values_are_the_same;
pub use history::{
    EdgeHistories, EdgeHistory, EdgeNote, EdgeNotes, StripeHistories, StripeHistory, StripeNote,
    StripeNotes,
};
pub use journey::{HopNote, HopNotes, Journey, RELAY, the_relay_is_numbered_behind_all_edges};
pub use trace::{Trace, TraceItem, TraceItems};
