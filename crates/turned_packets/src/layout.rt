//! Where the fields that change stand in an embedded packet.

ghost use Rattle.std.specs.Prelude.{◌≡◌};
ghost use Rattle.turned_packets.specs.Embedded.{address_place, port_place, sum_place};
ghost use Rattle.turned_packets.specs.Inside.{end_in};

use crate::ends::End;
use ip4_packet::{DESTINATION_AT, SOURCE_AT};
use l4_headers::place::{
    DESTINATION_PORT_AT, ICMP_SUM_AT, IDENTIFIER_AT, SOURCE_PORT_AT, TCP_SUM_AT, UDP_SUM_AT,
};
use octets::Proto;

/// The address of an end, in octets from the start of the IPv4 header.
pub(crate) fn address_place(end: End) -> usize
    ensures { result ≡ address_place (end_in end) }
{
    match end {
        End::Source => SOURCE_AT,
        End::Destination => DESTINATION_AT,
    }
}

/// The port of an end, in octets from the start of the transport header.
pub(crate) fn port_place(proto: Proto, end: End) -> usize
    ensures { result ≡ port_place proto (end_in end) }
{
    match (proto, end) {
        (Proto::Icmp, _) => IDENTIFIER_AT,
        (_, End::Source) => SOURCE_PORT_AT,
        (_, End::Destination) => DESTINATION_PORT_AT,
    }
}

/// The sum, in octets from the start of the transport header.
pub(crate) fn sum_place(proto: Proto) -> usize
    ensures { result ≡ sum_place proto }
{
    match proto {
        Proto::Tcp => TCP_SUM_AT,
        Proto::Udp => UDP_SUM_AT,
        Proto::Icmp => ICMP_SUM_AT,
    }
}
