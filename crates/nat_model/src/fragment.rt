ghost use Rattle.std.specs.Prelude.{◌≡◌};
ghost use Rattle.std.specs.Option.{option_map};
ghost use Rattle.frag_table.specs.Fragment.{frag_ask};
ghost use Rattle.nat_model.specs.Fragment.{port_of, ports_of, part_of, frag_ask_of};
ghost use Rattle.rule_book.specs.Holder.{holder_in};
ghost use Rattle.nat_model.specs.Machine.{arrives};

use crate::{Ask, Far, Part};
use frag_table::Fragment;
use l4_headers::Ports;
use map_rules::EdgeId;

/// The ports of the packet that is asked about, its source's first.
pub(crate) fn ports_of(ask: &Ask) -> Ports
    ensures { result ≡ ports_of ask.now }
{
    match ask {
        Ask::Outward { near, far, .. } => Ports {
            src: near.port,
            dst: far.port,
        },
        Ask::Inward { port, far, .. } => Ports {
            src: port_of(far),
            dst: *port,
        },
        Ask::Keep {
            host_port,
            port,
            ..
        } => Ports {
            src: *host_port,
            dst: *port,
        },
    }
}

/// The remote port.
fn port_of(far: &Far) -> u16
    ensures { result ≡ port_of far.now }
{
    match far {
        Far::Six { port, .. } | Far::Turned { port, .. } => *port,
    }
}

/// The fragment that is asked about, if the ask is about one.
pub(crate) fn fragment_of(ask: &Ask) -> Option<Fragment<'_>>
    ensures { option_map frag_ask result ≡ frag_ask_of (part_of ask.now) (ports_of ask.now) }
{
    let part = match ask {
        Ask::Outward { part, .. } | Ask::Inward { part, .. } => part,
        Ask::Keep { .. } => return None,
    };
    match part {
        Part::Whole => None,
        Part::First(key) => Some(Fragment::First(*key, ports_of(ask))),
        Part::Later(key, octets) => Some(Fragment::Later(*key, octets)),
    }
}

/// Whether the packet is for the edge: an inward one for its own MAP address, and a turned one for its IPv4 address.
pub(crate) fn arrives(edge: &EdgeId, ask: &Ask) -> bool
    ensures { result ≡ arrives (holder_in edge.now) ask.now }
{
    match ask {
        Ask::Outward { .. } | Ask::Keep { .. } => true,
        Ask::Inward { far, .. } => match far {
            Far::Six { dst, .. } => *dst == edge.own6,
            Far::Turned { dst, .. } => *dst == edge.addr,
        },
    }
}
