//! Configurations: what a text sets up, or the first thing that is wrong with it.
#![tactic(auto)]

mod capture;
mod claims;
mod crowd;
mod equal;
mod forward;
mod items;
mod laws;
mod moves;
mod script;
mod setup;
mod shapes;

pub use capture::{Capture, MOST_RECORDS, Side, captures_fit};
pub use equal::equal_values_are_the_same;
pub use forward::{ForwardLine, Forwards};
pub use laws::{
    a_script_is_one, octets_have_at_most_one_answer, refused_edges_are_the_first,
    still_changes_end_segments,
};
pub use moves::{Changes, MoveLine};
pub use script::{Script, ScriptItem};
pub use setup::Setup;
pub use setup_tables::{EdgeLine, Edges, SetupCause, SetupFault};
