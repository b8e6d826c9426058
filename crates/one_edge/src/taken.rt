use ip4_packet::Head4;
use l4_headers::Ports;
use octets::Proto;

/// What was read of a packet.
#[derive(Clone, Copy, Debug)]
pub(crate) struct Taken {
    pub head: Head4,
    pub proto: Proto,
    pub ports: Ports,
}
