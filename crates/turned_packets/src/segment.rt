//! The transport header of a turned packet.

ghost use Rattle.std.specs.Prelude.{◌≡◌, ◌≢◌, ◌^◌, ◌≤◌, ◌++◌, IfOk, length};
ghost use Rattle.octets.specs.declared.proto.Proto.TheVariants.{Icmp};
ghost use Rattle.l4_headers.specs.Transport.{header_octets};
ghost use Rattle.turned_packets.specs.Segment.{changed_sum, end_words, turned_segment};
ghost use Rattle.turned_packets.specs.Inside.{new_end_in};

use crate::ends::NewEnd;
use inet_sum::{adjust, as_udp};
use ip4_packet::Head4;
use l4_headers::{L4, address_sum4, followed_by};
use octets::{Addr4, Bytes, NoMemory, Proto};

/// The sum `sum` after words of sum `old` that it covers became words of sum `new`. A UDP sum that is missing stays so.
pub(crate) fn changed_sum(proto: Proto, sum: u16, old: u64, new: u64) -> u16
    ensures { result ≡ changed_sum proto sum old new }
{
    match proto {
        Proto::Udp if sum == 0 => 0,
        Proto::Udp => as_udp(adjust(sum, old, new)),
        Proto::Tcp | Proto::Icmp => adjust(sum, old, new),
    }
}

/// The sum of the words at one end that a transport sum covers.
pub(crate) fn end_words(proto: Proto, addr: Addr4, port: u16) -> u64
    ensures { result ≡ end_words proto addr port }
{
    match proto {
        Proto::Tcp | Proto::Udp => address_sum4(addr) + u64::from(port),
        Proto::Icmp => u64::from(port),
    }
}

/// The octets of `front`, followed by a TCP or UDP payload with its header behind this one, with the new port at its end.
pub(crate) fn turned_segment(
    front: Bytes,
    new: &NewEnd,
    head: &Head4,
    proto: Proto,
    l4: &L4,
    payload: &[u8],
) -> Result<Bytes, NoMemory>
    requires proto { proto ≢ Icmp }
    requires stands { header_octets proto ≤ length payload.now }
    ensures { IfOk result (λ octets. octets ≡ front ++ turned_segment (new_end_in new.now) head.now proto l4.now payload.now) }
{
    let old_words = end_words(proto, new.end.address_at(head), new.end.port_at(l4.ports));
    let new_words = end_words(proto, new.addr, new.port);
    let sum = changed_sum(proto, l4.sum, old_words, new_words);
    let ports = new.end.with_port(new.port, l4.ports);
    followed_by(front, proto, payload, ports, sum)
}
