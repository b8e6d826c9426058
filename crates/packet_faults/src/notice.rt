use octets::Addr4;

/// What an ICMP error says: its type, its code, and the four octets behind its sum.
#[derive(Clone, Copy, Debug, PartialEq, Eq, Hash)]
pub struct Notice {
    pub kind: u8,
    pub code: u8,
    pub rest: u32,
}

/// From where an ICMP error over IPv4 comes: its source, and its identification.
#[derive(Clone, Copy, Debug, PartialEq, Eq, Hash)]
pub struct Origin {
    pub addr: Addr4,
    pub id: u16,
}
