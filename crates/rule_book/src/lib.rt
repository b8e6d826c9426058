//! The mapping rules of one generation, with the default mapping rule: a rule book (RFC 7597, RFC 7599).
//! Who holds an IPv4 address and port, and which IPv4 address stands behind an IPv6 address.
#![tactic(auto)]

mod book;
mod change;
mod equal;
mod fault;
mod holder;
mod laws;
mod lines;
mod overlap;
mod owner;
mod refusal;
mod scan;
mod view;

pub use book::Book;
pub use change::Change;
pub use equal::equal_values_are_the_same;
pub use fault::BookFault;
pub use holder::one_holder;
pub use laws::{
    an_edge_is_named_by_the_first_prefix, refusals_name_the_least, refused_changes_name_the_least,
};
pub use lines::{RuleParts, dmr_line};
pub use owner::owner_line;
pub use view::{FarOf, RuleView};
