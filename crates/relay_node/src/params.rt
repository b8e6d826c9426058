use octets::{Addr4, Mtus};

/// The relay's own IPv4 address, from which it sends errors, and the greatest packets of its two sides.
#[derive(Clone, Copy, Debug, PartialEq, Eq, Hash)]
pub struct RelayParams {
    pub relay4: Addr4,
    pub mtus: Mtus,
}
