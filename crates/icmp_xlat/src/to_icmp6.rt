//! ICMPv4 packets translated to ICMPv6 (after RFC 7915, sections 4.2 and 4.3).
ghost use Rattle.std.specs.Prelude.{◌≡◌, ◌≢◌, ◌+◌, ◌/◌, ◌^◌, ◌<◌, ◌≤◌, ℕ, false, length, min, take, Some, None, IfOk, IfErr};
ghost use Rattle.std.specs.Option.{option_map};
ghost use Rattle.octets.specs.declared.cause.Fault.TheVariants.{NoMemory as WantsMemory};
ghost use Rattle.ip4_packet.specs.declared.head.Head4.{Head4 as Header};
ghost use Rattle.icmp_messages.specs.declared.icmp4.Icmp4.{Icmp4 as Message};
ghost use Rattle.icmp_messages.specs.declared.inner4.Inner4.{Inner4 as Inner};
ghost use Rattle.icmp_messages.specs.Table.{pointer_of, pointers46};
ghost use Rattle.icmp_messages.specs.Inner.{IsInner4};
ghost use Rattle.ip4_packet.specs.Fragment.{is_fragment};
ghost use Rattle.icmp_messages.specs.declared.table.Rest.TheVariants.{Query as QueryRest, Pointer as PointerRest};
ghost use Rattle.icmp_xlat.specs.Inner.{Stands4};
ghost use Rattle.icmp_xlat.specs.Icmp46.{rest46, query46, error46, with_message46, IsMessage46, IsAnswer46, IsAccepted46};
ghost use Rattle.icmp_messages.specs.Extension.{embedded46};
ghost use Rattle.icmp_messages.specs.Rows.{LacksPointer46, EmbedsOne46, MayEmbed46};

use crate::Ends;
use crate::inner::inner46;
use crate::mtu::mtu46;
use crate::passing::Passing;
use icmp_messages::{Icmp4, Icmp6, Inner4, Rest, Row, pointer46, read_inner4};
use ip4_packet::Head4;
use octets::{Addr6, Bytes, Cause, Fault, Mtus, NoMemory};
use std::alloc::Global;
use xlat46::head46;

/// The pointer to the next header of an IPv6 header.
const NEXT_HEADER: u32 = 6;

/// The most octets of an embedded packet: with 48 octets in front of it an ICMPv6 error has 1280 (RFC 4443,
/// section 2.4).
const MOST_EMBEDDED: usize = 1232;

/// The four octets behind the sum of an error, whose pointer has a row.
fn rest46(mtus: Mtus, total: u16, rest: u32, kind: Rest) -> u32
    requires no_query { kind ≢ QueryRest }
    requires pointer { kind ≡ PointerRest → pointer_of pointers46 (rest / 2 ^ 24) ≢ None }
    ensures { rest46 mtus total rest kind ≡ Some result }
{
    match kind {
        Rest::Query | Rest::Zero => 0,
        Rest::Protocol => NEXT_HEADER,
        Rest::Mtu => mtu46(mtus, total, (rest % (1 << 16)) as u16),
        Rest::Pointer => pointer46(rest >> 24).unwrap_or(0),
    }
}

/// A query with its new identifier, the source port.
pub fn query46(
    alloc: Global,
    message: &Icmp4,
    row: Row,
    ends: &Ends<Addr6>,
) -> Result<Icmp6, NoMemory>
    ensures value { IfOk result (λ m. m ≡ query46 message.now row ends.now) }
    ensures fits { IfOk result (λ m. length m.body ≡ length message.now.body) }
{
    Ok(Icmp6 {
        kind: row.to_kind,
        code: row.to_code,
        rest: u32::from(ends.ports.src) * (1 << 16) + message.rest % (1 << 16),
        body: message.body.copy(alloc)?,
    })
}

/// The first octets of these, so many at most.
fn first_octets(octets: &[u8], most: usize) -> &[u8]
    ensures value { result.now ≡ take most octets.now }
    ensures fits { length result.now ≤ most }
{
    &octets[..octets.len().min(most)]
}

/// An error of this row about this embedded packet, whose pointer has a row (RFC 7915, sections 4.2 and 4.3). The embedded packet
/// gets its inner ends and both ports, and is cut so that the error has at most 1280 octets.
pub fn error46(
    alloc: Global,
    passing: &Passing<Addr6>,
    message: &Icmp4,
    row: Row,
    inner: &Inner4,
) -> Result<Icmp6, NoMemory>
    requires embedded { Stands4 inner.now }
    requires no_query { row.rest ≢ QueryRest }
    requires pointer { LacksPointer46 message.now (Some row) → ⊥ }
    ensures value { IfOk result (λ m. option_map
        (λ rest. error46 row rest inner.now passing.now.ends)
        (rest46 passing.now.mtus inner.now.head.total message.now.rest row.rest) ≡ Some m) }
    ensures fits { IfOk result (λ m. length m.body ≤ 1232) }
{
    let rest = rest46(passing.mtus, inner.head.total, message.rest, row.rest);
    let octets = inner46(alloc, inner, &passing.ends)?;
    let mut body = Bytes::new(alloc);
    body.extend(first_octets(octets.as_slice(), MOST_EMBEDDED))?;
    Ok(Icmp6 {
        kind: row.to_kind,
        code: row.to_code,
        rest,
        body,
    })
}

/// The packet of this header with this message in place of its own, between these ends.
pub fn with_message46(
    alloc: Global,
    head: &Head4,
    message: &Icmp6,
    ends: &Ends<Addr6>,
) -> Result<Bytes, NoMemory>
    requires alive { 1 ≤ head.now.ttl }
    requires lengths { head.now.head_len ≤ head.now.total }
    requires protocol { head.now.proto ≡ 1 }
    requires whole { is_fragment head.now ≡ false }
    requires fits { length message.now.body ≤ 65515 }
    ensures { IfOk result (λ octets. octets ≡ with_message46 head.now message.now ends.now) }
{
    let octets = message.write(alloc, ends.src, ends.dst)?;
    let mut outer = head46(head, ends.src, ends.dst);
    outer.length = octets.as_slice().len() as u16;
    outer.write(alloc, octets.as_slice())
}

/// The message translated by its row.
fn translated46(
    alloc: Global,
    passing: &Passing<Addr6>,
    message: &Icmp4,
    row: Row,
) -> Result<Icmp6, Fault>
    requires embeds { EmbedsOne46 message.now (Some row) }
    requires pointer { LacksPointer46 message.now (Some row) → ⊥ }
    requires fits { length message.now.body ≤ 65515 }
    ensures query { row.rest ≡ QueryRest → IfOk result (λ m. m ≡ query46 message.now row passing.now.ends) }
    ensures error { (inner : Inner) (rest : ℕ) → IsInner4 inner (embedded46 message.now)
        → rest46 passing.now.mtus inner.head.total message.now.rest row.rest ≡ Some rest
        → IfOk result (λ m. m ≡ error46 row rest inner passing.now.ends) }
    ensures no_other { IfErr result (λ f. f ≡ WantsMemory) }
    ensures short { IfOk result (λ m. length m.body ≤ 65515) }
{
    if matches!(row.rest, Rest::Query) {
        return Ok(query46(alloc, message, row, &passing.ends)?);
    }
    let inner = read_inner4(alloc, message.embedded())?;
    Ok(error46(alloc, passing, message, row, &inner)?)
}

/// The packet with this header and this message, translated to ICMPv6. What a message embeds that has no translation isn't looked
/// at.
fn answer46(
    alloc: Global,
    passing: &Passing<Addr6>,
    head: &Head4,
    message: &Icmp4,
) -> Result<Bytes, Fault>
    requires alive { 1 ≤ head.now.ttl }
    requires lengths { head.now.head_len ≤ head.now.total }
    requires protocol { head.now.proto ≡ 1 }
    requires whole { is_fragment head.now ≡ false }
    requires fits { length message.now.body ≤ 65515 }
    requires embeds { MayEmbed46 message.now }
    ensures { IsAnswer46 passing.now.mtus head.now message.now passing.now.ends result }
{
    let Some(row) = message.row() else {
        return Err(Fault::Drop(Cause::IcmpKind));
    };
    let translated = translated46(alloc, passing, message, row)?;
    Ok(with_message46(alloc, head, &translated, &passing.ends)?)
}

/// The ICMPv4 packet translated to ICMPv6, with these addresses and ports (after RFC 7915, sections 4.2 and 4.3). A
/// query gets the source port as its identifier. An error gets both ports in its embedded packet, whose TTL stays,
/// and has at most 1280 octets; its extension is dropped. All ICMP sums are made anew.
///
/// Refuses as `IcmpKind`, and as nothing else but for want of memory, exactly what has no row in the tables of types,
/// codes and pointers, whatever it embeds. The packet has no other cause for which it is dropped, and a TTL of at least 2.
pub fn icmp46(alloc: Global, mtus: Mtus, packet: &[u8], ends: &Ends<Addr6>) -> Result<Bytes, Fault>
    requires { IsAccepted46 packet.now }
    ensures { (head : Header) (m : Message) → IsMessage46 head m packet.now → IsAnswer46 mtus head m ends.now result }
{
    let head = Head4::accepted(packet);
    let message = Icmp4::read(alloc, head.payload(packet))?;
    let passing = Passing {
        mtus,
        ends: *ends,
        id: 0,
    };
    answer46(alloc, &passing, &head, &message)
}
