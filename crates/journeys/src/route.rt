//! Where packets go: the node that a destination names, where a record starts, and where what a node sends stands next.
ghost use Rattle.std.specs.Prelude.{◌≡◌, ◌<◌, length, IfSome, IsTrue};
ghost use Rattle.mapt_setup.specs.Fit.{is_side_of};
ghost use Rattle.mapt_setup.specs.Valid.{IsValidSetup};
ghost use Rattle.journeys.specs.Waiting.{StandsIn, edge_with, node_of, next_stand, first_stand};

use crate::Stand;
use edge_node::{Out, Way};
use ip6_packet::destination_of;
use mapt_setup::{EdgeLine, Setup, Side};
use octets::Addr6;
use rule_book::RuleView;

/// The place of the edge whose prefix has the address.
fn edge_with(edges: &[EdgeLine], addr: Addr6) -> Option<usize>
    ensures place { result ≡ edge_with edges.now addr.0 }
    ensures within { IfSome result (λ at. at < length edges.now) }
{
    edges.iter().position(|edge| edge.prefix.has(addr))
}

/// Where a packet over the access network stands by its destination: at the edge whose prefix has it, at the relay inside the
/// default mapping rule (RFC 7599, section 6), and else nowhere.
pub fn node_of(setup: &Setup, dst: Addr6) -> Option<Stand>
    requires { IsValidSetup setup.now }
    ensures node { result ≡ node_of setup.now dst.0 }
    ensures stands { IfSome result (StandsIn setup.now) }
{
    if let Some(number) = edge_with(setup.edges.as_slice(), dst) {
        return Some(Stand::Edge {
            number: number as u32,
            way: Way::Access,
        });
    }
    if setup.book.dmr().prefix.has(dst) {
        Some(Stand::Relay { six: true })
    } else {
        None
    }
}

/// Where a packet stands next that a node sends which took one here: at the node of its destination, at the same node once more,
/// or nowhere in the domain.
pub fn next_stand(setup: &Setup, here: Stand, out: &Out) -> Option<Stand>
    requires { IsValidSetup setup.now }
    ensures next { result ≡ next_stand setup.now here out.now }
    // Where it stands is at an edge of the setup, if the packet did that was taken.
    ensures stands { StandsIn setup.now here → IfSome result (StandsIn setup.now) }
{
    match out {
        Out::Lan(_) | Out::Core(_) => None,
        Out::Access(octets) => match destination_of(octets.as_slice()) {
            Some(dst) => node_of(setup, dst),
            None => None,
        },
        Out::Turn(_) => Some(here.turned()),
    }
}

/// Where a record starts: at the edge of its LAN, at the relay from the core, and from the access network at the node of its
/// destination. Octets of the access network that are no header of IPv6 start at the relay, which says what is wrong with them.
pub fn first_stand(setup: &Setup, side: Side, octets: &[u8]) -> Option<Stand>
    requires { IsValidSetup setup.now }
    ensures first { result ≡ first_stand setup.now side octets.now }
    // Where it starts is at an edge of the setup, if its side is one of it.
    ensures stands { IsTrue (is_side_of setup.now side) → IfSome result (StandsIn setup.now) }
{
    match side {
        Side::Lan(number) => Some(Stand::Edge {
            number,
            way: Way::Lan,
        }),
        Side::Access => match destination_of(octets) {
            Some(dst) => node_of(setup, dst),
            None => Some(Stand::Relay { six: true }),
        },
        Side::Core => Some(Stand::Relay { six: false }),
    }
}
