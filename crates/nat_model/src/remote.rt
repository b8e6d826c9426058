ghost use Rattle.std.specs.Prelude.{◌≡◌, Ok, Err, IfOk, IfErr};
ghost use Rattle.rule_book.specs.Holder.{holder_in};
ghost use Rattle.nat_model.specs.Inside.{remote_in};
ghost use Rattle.nat_model.specs.State.{generation_in};
ghost use Rattle.nat_model.specs.Remote.{found_behind, behind, remote, far_port, reached, is_own, sent};

use crate::{Answer, End4, Far};
use map_rules::EdgeId;
use octets::{Addr4, Addr6, Cause, Parcels, Proto};
use rule_book::{Book, FarOf, RuleView};

/// The IPv4 addresses from which a packet comes, and with which its flow is.
#[derive(Clone, Copy, Debug)]
pub(crate) struct Remote {
    pub(crate) from: Addr4,
    pub(crate) peer: Addr4,
}

/// The IPv4 addresses behind the source and the peer of an inward packet, both with this remote port. Refused
/// for the source before the peer (RFC 7599, section 8.2).
#[tactic(auto, unfolding(crate::specs::Remote::remote))]
pub(crate) fn remote_of(book: &Book, far: &Far, port: u16) -> Result<Remote, Cause>
    ensures found { IfOk result (λ found. remote (generation_in book.now) far.now port ≡ Ok (remote_in found)) }
    ensures refused { IfErr result (λ cause. remote (generation_in book.now) far.now port ≡ Err cause) }
{
    match far {
        Far::Turned { src, peer, .. } => Ok(Remote {
            from: *src,
            peer: *peer,
        }),
        Far::Six { src, peer, .. } => {
            let from = behind(book, *src, port)?;
            let peer = behind(book, *peer, port)?;
            Ok(Remote { from, peer })
        }
    }
}

/// The IPv4 address behind an IPv6 address and a port.
#[tactic(auto, unfolding(crate::specs::Remote::behind))]
fn behind(book: &Book, s: Addr6, port: u16) -> Result<Addr4, Cause>
    ensures { result ≡ behind (generation_in book.now) s.0 port }
{
    match book.far4(s, port) {
        FarOf::Addr(addr) => Ok(addr),
        FarOf::Spoofed => Err(Cause::Spoofed),
        FarOf::NotDefault => Err(Cause::NotDefault),
    }
}

/// The far port of an outward packet: for ICMP the identifier, which the edge replaces.
pub(crate) fn far_port(proto: Proto, port: u16, outside: u16) -> u16
    ensures { result ≡ far_port proto port outside }
{
    match proto {
        Proto::Tcp | Proto::Udp => port,
        Proto::Icmp => outside,
    }
}

/// The answer to an outward packet whose binding has this outside port: it turns where the far end is the edge
/// itself, and else goes out.
#[tactic(auto, unfolding(crate::specs::Remote::sent))]
pub(crate) fn sent(edge: &EdgeId, book: &Book, outside: u16, far: End4, freed: Parcels) -> Answer
    ensures { result ≡ sent (holder_in edge.now) (generation_in book.now) outside far freed }
{
    if is_own(edge, far) {
        return Answer::Turn {
            from: edge.addr,
            port: outside,
            freed,
        };
    }
    Answer::Out {
        from: edge.addr,
        port: outside,
        src6: edge.own6,
        dst6: reached(book, far),
        freed,
    }
}

/// Whether the far end is the edge itself.
fn is_own(edge: &EdgeId, far: End4) -> bool
    ensures { result ≡ is_own (holder_in edge.now) far.addr.0 far.port }
{
    far.addr == edge.addr && edge.ports.has(far.port)
}

/// Where an IPv4 address and port are reached over IPv6: by a forwarding rule, or under the default mapping rule.
fn reached(book: &Book, far: End4) -> Addr6
    ensures { result.0 ≡ reached (generation_in book.now) far.addr.0 far.port }
{
    match book.forward(far.addr, far.port) {
        Some(own) => own,
        None => book.dmr().embed(far.addr),
    }
}
