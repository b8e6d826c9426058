/// Which packet a fragment belongs to.
#[derive(Clone, Copy, Debug, PartialEq, Eq, Hash)]
pub struct FragKey {
    /// Where the fragment came from: 0 a LAN, 1 the access network at an edge, 2 turned at an edge, 3 the
    /// access network at the relay, 4 the core or turned at the relay.
    pub way: u8,
    /// The source address as a number.
    pub src: u128,
    /// The destination address as a number.
    pub dst: u128,
    /// The protocol of the header.
    pub proto: u8,
    /// The identification.
    pub id: u32,
}
