//! The transport headers that the domain carries: TCP (RFC 9293), UDP (RFC 768) and ICMP (RFC 792,
//! RFC 4443). Their ports and sums are read, and replaced in place.
#![tactic(auto)]

ghost use Rattle.std.specs.Prelude.{◌≡◌, ◌≤◌, ◌↔◌, IsErr, IfErr, IfOk, OnOk, length};
ghost use Rattle.octets.specs.declared.cause.Cause.TheVariants.{BadTransport};
ghost use Rattle.l4_headers.specs.Transport.{header_octets, IsBadTransport, l4_of, with_l4};

mod ends;
mod equal;
mod icmp;
pub mod place;
mod ports;
mod pseudo_header;
mod readdress;
mod segment;
mod tcp;
mod udp;

pub use ends::Ends;
pub use equal::equal_values_are_the_same;
use octets::{Cause, Proto};
pub use ports::{L4, NO_PORTS, Ports};
pub use pseudo_header::{address_sum4, address_sum6, pseudo_sum4, pseudo_sum6};
pub use readdress::{computed_udp_sum, followed_by, followed_by_cut_tcp, readdressed_sum};
pub use segment::Segment;

/// The ports, the sum and the flags at the front of a packet's transport payload. `whole` says that the
/// packet is no fragment; without it the payload is that of a first fragment, and only the header itself
/// has to stand there.
///
/// Answers `BadTransport` alone: for fewer than 20 octets of TCP or 8 of UDP or ICMP, and in a whole
/// packet for a TCP data offset below 5 or past the payload, or a UDP length that isn't the payload's.
pub fn read_l4(proto: Proto, payload: &[u8], whole: bool) -> Result<L4, Cause>
    ensures refused { IsErr result ↔ IsBadTransport proto payload.now whole }
    ensures cause { IfErr result (λ cause. cause ≡ BadTransport) }
    ensures value { IfOk result (λ l4. l4 ≡ l4_of proto payload.now) }
    ensures stands { OnOk result (header_octets proto ≤ length payload.now) }
{
    let bad = match proto {
        Proto::Tcp => tcp::is_bad(payload, whole),
        Proto::Udp => udp::is_bad(payload, whole),
        Proto::Icmp => icmp::is_bad(payload),
    };
    if bad {
        return Err(Cause::BadTransport);
    }
    Ok(accepted_l4(proto, payload))
}

/// The ports in the first 8 octets of a transport header, which are the least that an ICMP error embeds of
/// it (RFC 792). For ICMP both are octets 4 and 5, the identifier of a query.
pub fn read_ports(proto: Proto, payload: &[u8]) -> Ports
    requires { 8 ≤ length payload.now }
    ensures { result ≡ (l4_of proto payload.now).ports }
{
    match proto {
        Proto::Tcp => tcp::ports(payload),
        Proto::Udp => udp::ports(payload),
        Proto::Icmp => icmp::ports(payload),
    }
}

/// The ports, the sum and the flags at the front of a payload that `read_l4` accepts.
pub fn accepted_l4(proto: Proto, payload: &[u8]) -> L4
    requires { header_octets proto ≤ length payload.now }
    ensures { result ≡ l4_of proto payload.now }
{
    match proto {
        Proto::Tcp => tcp::read(payload),
        Proto::Udp => udp::read(payload),
        Proto::Icmp => icmp::read(payload),
    }
}

/// Writes the ports and the sum into a payload that `read_l4` accepts of a first fragment, and so also
/// into one that it accepts of a whole packet. An ICMP query has its identifier, `ports.src`, in place of
/// ports. Any other ICMP message keeps all but its sum.
pub fn set_l4(proto: Proto, payload: &mut [u8], ports: Ports, sum: u16)
    requires { header_octets proto ≤ length payload.old }
    ensures { payload.new ≡ with_l4 proto payload.old ports sum }
{
    match proto {
        Proto::Tcp => tcp::set(payload, ports, sum),
        Proto::Udp => udp::set(payload, ports, sum),
        Proto::Icmp => icmp::set(payload, ports, sum),
    }
}
