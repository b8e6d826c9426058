use l4_headers::Ends;
use octets::Mtus;

/// What a node translates a packet by: the MTUs of both sides, the addresses and ports that it gets, and the identification of
/// an IPv4 packet that has none of its own.
#[derive(Clone, Copy, Debug)]
pub struct Passing<A> {
    pub mtus: Mtus,
    pub ends: Ends<A>,
    pub id: u16,
}
