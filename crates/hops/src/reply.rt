//! The ICMP errors that answer dropped packets.
ghost use Rattle.std.specs.Prelude.{◌≡◌, IfOk};
ghost use Rattle.ip4_packet.specs.Grammar.{payload_of4, Is4};
ghost use Rattle.ip4_packet.specs.Causes.{HasNoHeaderCause4};
ghost use Rattle.ip6_packet.specs.Grammar.{payload_of6, Is6};
ghost use Rattle.ip6_packet.specs.Causes.{HasNoHeaderCause6};
ghost use Rattle.hops.specs.Reply.{notice4, notice6, IsReply4, IsReply6};

use crate::answering::Answering;
use ip4_packet::Head4;
use ip6_packet::Head6;
use octets::icmp_type::{
    PARAMETER_PROBLEM6, TIME_EXCEEDED4, TIME_EXCEEDED6, TOO_BIG6, UNREACHABLE4,
};
use octets::{Addr4, Addr6, Bytes, Cause, Mtus, NoMemory};
use packet_faults::{Notice, Origin, answer4, answer6};
use std::alloc::Global;

/// Fragmentation needed, and source route failed (RFC 792): codes of "destination unreachable".
const FRAGMENTATION_NEEDED: u8 = 4;

const SOURCE_ROUTE_FAILED: u8 = 5;

/// Octets that a packet gains by its translation to IPv6, without a Fragment Header.
const LONGER: u16 = 20;

/// What an ICMPv4 error says of this cause, if it has one.
fn notice4(mtus: Mtus, cause: Cause) -> Option<Notice>
    ensures { result ≡ notice4 mtus cause }
{
    let (kind, code, rest) = match cause {
        Cause::SourceRoute => (UNREACHABLE4, SOURCE_ROUTE_FAILED, 0),
        Cause::TtlSpent => (TIME_EXCEEDED4, 0, 0),
        Cause::TooBig => {
            let mtu = u32::from(mtus.mtu6 - LONGER);
            (UNREACHABLE4, FRAGMENTATION_NEEDED, mtu)
        }
        _ => return None,
    };
    Some(Notice { kind, code, rest })
}

/// What an ICMPv6 error says of this cause, if it has one, to a packet whose segments left stand at this place.
fn notice6(mtus: Mtus, left: Option<u32>, cause: Cause) -> Option<Notice>
    ensures { result ≡ notice6 mtus left cause }
{
    let (kind, rest) = match cause {
        Cause::SourceRoute => (PARAMETER_PROBLEM6, left.unwrap_or(0)),
        Cause::TtlSpent => (TIME_EXCEEDED6, 0),
        Cause::TooBig => (TOO_BIG6, u32::from(mtus.mtu4 + LONGER)),
        _ => return None,
    };
    Some(Notice {
        kind,
        code: 0,
        rest,
    })
}

/// The ICMPv4 error by which a node answers a packet of this header that it drops for this cause. None for a cause that has
/// none, and where no error may answer the packet (RFC 1122, section 3.2.2).
pub fn reply4(
    alloc: Global,
    from: &Answering<Addr4>,
    head: &Head4,
    packet: &[u8],
    cause: Cause,
) -> Result<Option<Bytes>, NoMemory>
    requires is { Is4 head.now (payload_of4 head.now packet.now) packet.now }
    requires fine { HasNoHeaderCause4 packet.now }
    ensures { IfOk result (IsReply4 from.now head.now packet.now cause) }
{
    let Some(what) = notice4(from.mtus, cause) else {
        return Ok(None);
    };
    let origin = Origin {
        addr: from.src,
        id: from.id,
    };
    answer4(alloc, head, packet, what, origin)
}

/// The ICMPv6 error by which a node answers a packet of these headers that it drops for this cause. None for a cause that has
/// none, and where no error may answer the packet (RFC 4443, section 2.4).
pub fn reply6(
    alloc: Global,
    from: &Answering<Addr6>,
    head: &Head6,
    packet: &[u8],
    cause: Cause,
) -> Result<Option<Bytes>, NoMemory>
    requires is { Is6 head.now (payload_of6 head.now packet.now) packet.now }
    requires fine { HasNoHeaderCause6 packet.now }
    ensures { IfOk result (IsReply6 from.now head.now packet.now cause) }
{
    let Some(what) = notice6(from.mtus, head.left, cause) else {
        return Ok(None);
    };
    answer6(alloc, head, packet, what, from.src)
}
