//! The notes that a node keeps on fragments, so that a later fragment, which has no ports, gets those of
//! the first one and waits for it where it comes earlier (RFC 6146, section 3.4).
#![tactic(auto)]

mod answer;
mod ask;
mod equal;
mod fragment;
mod key;
mod laws;
mod live;
mod note;
mod notes;
mod rows;
mod table;

pub use answer::FragAnswer;
pub use ask::FragAsk;
pub use equal::equal_values_are_the_same;
pub use fragment::Fragment;
pub use key::FragKey;
pub use laws::{each_fragment_has_an_answer_of_its_kind, notes_keep_their_bounds};
pub use note::Note;
pub use table::FragTable;
