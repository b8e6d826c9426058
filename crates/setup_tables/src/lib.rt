//! What the tables of a configuration say, or the first thing that is wrong with one of them by itself.
#![tactic(auto)]

mod change;
mod domain;
mod edge;
mod edge_name;
mod equal;
mod fault;
mod forward;
mod keys;
mod origin;
mod rule;
mod sentence;
mod spelled;
mod tables;

pub use change::{Action, ChangeText, ChangeTexts};
pub use domain::{Domain, Required};
pub use edge::{EdgeLine, Edges};
pub use equal::equal_values_are_the_same;
pub use fault::{SetupCause, SetupFault};
pub use forward::{ForwardText, ForwardTexts};
pub use origin::{Given, Origin};
pub use rule::{RuleLine, RuleLines};
pub use tables::Tables;
