//! Transport headers of a packet that gets other addresses and ports (RFC 7915, sections 4.5 and 5.5).
ghost use Rattle.std.specs.Prelude.{◌≡◌, ◌≢◌, ◌+◌, ◌^◌, ◌<◌, ◌≤◌, ◌++◌, IfOk, length};
ghost use Rattle.octets.specs.declared.proto.Proto.TheVariants.{Tcp, Icmp};
ghost use Rattle.octets.specs.Field.{word, with_word};
ghost use Rattle.l4_headers.specs.Transport.{header_octets, with_l4};
ghost use Rattle.l4_headers.specs.Readdressed.{as_written, port_words, readdressed_sum, computed_udp_sum};

use crate::place::{DESTINATION_PORT_AT, SOURCE_PORT_AT, TCP_SUM_AT, UDP_SUM_AT};
use crate::{L4, Ports, udp};
use inet_sum::{adjust, as_udp, check_of, sum};
use octets::{Bytes, NoMemory, Proto};

/// A check sum as its protocol writes it: UDP has 65535 in the place of 0 (RFC 768).
fn as_written(proto: Proto, sum: u16) -> u16
    ensures { result ≡ as_written proto sum }
{
    match proto {
        Proto::Udp => as_udp(sum),
        Proto::Tcp | Proto::Icmp => sum,
    }
}

/// The sum of the words of both ports.
fn port_words(ports: Ports) -> u64
    ensures value { result ≡ port_words ports }
    ensures bounded { result < 2 ^ 17 }
{
    u64::from(ports.src) + u64::from(ports.dst)
}

/// The sum of a TCP or UDP header once the words of its addresses, of sum `old`, became words of sum `new`, and
/// its ports became these (RFC 1624). A sum that was wrong stays wrong.
pub fn readdressed_sum(proto: Proto, l4: &L4, old: u64, new: u64, ports: Ports) -> u16
    requires old { old ≤ 2 ^ 32 }
    requires new { new ≤ 2 ^ 32 }
    ensures { result ≡ readdressed_sum proto l4.now old new ports }
{
    let before = old + port_words(l4.ports);
    let after = new + port_words(ports);
    as_written(proto, adjust(l4.sum, before, after))
}

/// The sum of a UDP datagram once its ports are these, computed over a pseudo header whose words have the sum
/// `pseudo` (RFC 768). The datagram has no sum yet: its place holds 0.
pub fn computed_udp_sum(pseudo: u64, datagram: &[u8], ports: Ports) -> u16
    requires pseudo { pseudo ≤ 2 ^ 32 }
    requires stands { 8 ≤ length datagram.now }
    requires fits { length datagram.now ≤ 2 ^ 32 }
    requires unsummed { word datagram.now 6 ≡ 0 }
    ensures { result ≡ computed_udp_sum pseudo datagram.now ports }
{
    let others = sum(datagram) - port_words(udp::ports(datagram));
    as_udp(check_of(pseudo + others + port_words(ports)))
}

/// The octets of `front`, followed by a payload with these ports at its front and this sum at its place. Where `front` has
/// room for the payload, it takes no more memory.
#[tactic(auto, using(crate::proofs::Behind::three_behind))]
fn readdressed(
    front: Bytes,
    payload: &[u8],
    sum_at: usize,
    ports: Ports,
    sum: u16,
) -> Result<Bytes, NoMemory>
    requires behind { 4 ≤ sum_at }
    requires stands { sum_at + 2 ≤ length payload.now }
    ensures { IfOk result (λ octets. octets
        ≡ front ++ with_word sum_at sum (with_word 2 ports.dst (with_word 0 ports.src payload.now))) }
{
    let at = front.as_slice().len();
    let mut octets = front;
    octets.extend(payload)?;
    octets.set_word(at + SOURCE_PORT_AT, ports.src);
    octets.set_word(at + DESTINATION_PORT_AT, ports.dst);
    octets.set_word(at + sum_at, sum);
    Ok(octets)
}

/// The octets of `front`, followed by a TCP or UDP payload with these ports and this sum.
pub fn followed_by(
    front: Bytes,
    proto: Proto,
    payload: &[u8],
    ports: Ports,
    sum: u16,
) -> Result<Bytes, NoMemory>
    requires proto { proto ≢ Icmp }
    requires stands { header_octets proto ≤ length payload.now }
    ensures { IfOk result (λ octets. octets ≡ front ++ with_l4 proto payload.now ports sum) }
{
    match proto {
        Proto::Tcp => readdressed(front, payload, TCP_SUM_AT, ports, sum),
        Proto::Udp => readdressed(front, payload, UDP_SUM_AT, ports, sum),
        Proto::Icmp => unreachable!(),
    }
}

/// The octets of `front`, followed by the first octets of a TCP segment, up to its sum at least, with these ports and
/// this sum.
pub fn followed_by_cut_tcp(
    front: Bytes,
    segment: &[u8],
    ports: Ports,
    sum: u16,
) -> Result<Bytes, NoMemory>
    requires { 18 ≤ length segment.now }
    ensures { IfOk result (λ octets. octets ≡ front ++ with_l4 Tcp segment.now ports sum) }
{
    readdressed(front, segment, TCP_SUM_AT, ports, sum)
}
