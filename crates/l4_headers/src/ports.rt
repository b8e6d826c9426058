/// The two ports of a TCP or UDP packet. Of an ICMP query both are its identifier.
#[derive(Clone, Copy, Debug, PartialEq, Eq, Hash)]
pub struct Ports {
    pub src: u16,
    pub dst: u16,
}

/// The ports of a later fragment, which has none.
pub const NO_PORTS: Ports = Ports { src: 0, dst: 0 };

/// What the domain needs of a transport header.
#[derive(Clone, Copy, Debug, PartialEq, Eq, Hash)]
pub struct L4 {
    pub ports: Ports,
    /// The check sum, as it stands there.
    pub sum: u16,
    /// The flags octet of TCP, in which FIN is 1, SYN 2 and RST 4, and 0 for the others.
    pub flags: u8,
}
