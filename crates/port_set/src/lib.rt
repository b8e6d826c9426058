//! Port sets of customer edges (RFC 7597, section 5.1): membership, ranks and ranges by arithmetic.
#![tactic(auto)]

mod equal;
mod laws;
mod layout;
mod port_set;

pub use equal::equal_values_are_the_same;
pub use laws::{
    ranks_are_below_the_count, ranks_rise, runs_are_told_by_number, runs_cover_the_set, runs_rise,
    sets_are_disjoint, sets_cover_the_ports,
};
pub use port_set::{BadPorts, PortSet};
