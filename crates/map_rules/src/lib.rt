//! Mapping rules (RFC 7597, RFC 7599) and the default mapping rule's embedding (RFC 6052).
#![tactic(auto)]

mod dmr;
mod equal;
mod laws;
mod place;
mod rule;

pub use dmr::Dmr;
pub use equal::equal_values_are_the_same;
pub use laws::{
    a_map_address_has_one_source, a_source_has_its_address, an_address_has_its_source,
    edges_of_a_rule_hold_apart, embedded_addresses_are_inside_the_prefix, embedding_is_one_to_one,
    map_addresses_are_inside_the_rule, sources_are_told,
};
pub use rule::{EdgeId, Rule};
