//! ICMPv6 packets translated to ICMPv4 (after RFC 7915, sections 5.2 and 5.3).
ghost use Rattle.std.specs.Prelude.{◌≡◌, ◌≢◌, ◌+◌, ◌/◌, ◌^◌, ◌<◌, ◌≤◌, ℕ, false, length, min, take, Some, None, IfOk, IfErr};
ghost use Rattle.std.specs.Option.{option_map};
ghost use Rattle.octets.specs.declared.cause.Fault.TheVariants.{NoMemory as WantsMemory};
ghost use Rattle.ip6_packet.specs.declared.head.Head6.{Head6 as Header};
ghost use Rattle.ip6_packet.specs.Fragment.{fragment_offset};
ghost use Rattle.icmp_messages.specs.declared.icmp6.Icmp6.{Icmp6 as Message};
ghost use Rattle.icmp_messages.specs.declared.inner6.Inner6.{Inner6 as Inner};
ghost use Rattle.icmp_messages.specs.Inner.{IsInner6};
ghost use Rattle.icmp_messages.specs.Table.{pointer_of, pointers64};
ghost use Rattle.icmp_messages.specs.declared.table.Rest.TheVariants.{Query as QueryRest, Pointer as PointerRest};
ghost use Rattle.icmp_xlat.specs.Inner.{Stands6};
ghost use Rattle.icmp_xlat.specs.Icmp64.{rest64, query64, error64, with_message64, IsMessage64, IsAnswer64, IsAccepted64};
ghost use Rattle.icmp_messages.specs.Extension.{embedded64};
ghost use Rattle.icmp_messages.specs.Rows.{LacksPointer64, EmbedsOne64, MayEmbed64};

use crate::Ends;
use crate::inner::inner64;
use crate::mtu::mtu64;
use crate::passing::Passing;
use icmp_messages::{Icmp4, Icmp6, Inner6, Rest, Row, pointer64, read_inner6};
use ip6_packet::Head6;
use octets::{Addr4, Bytes, Cause, Fault, Mtus, NoMemory};
use std::alloc::Global;
use xlat64::head64;

/// The four octets behind the sum of an error, whose pointer has a row.
fn rest64(mtus: Mtus, rest: u32, kind: Rest) -> u32
    requires no_query { kind ≢ QueryRest }
    requires pointer { kind ≡ PointerRest → pointer_of pointers64 rest ≢ None }
    ensures { rest64 mtus rest kind ≡ Some result }
{
    match kind {
        Rest::Query | Rest::Zero | Rest::Protocol => 0,
        Rest::Mtu => u32::from(mtu64(mtus, rest)),
        Rest::Pointer => pointer64(rest).unwrap_or(0) * (1 << 24),
    }
}

/// A query with its new identifier, the source port.
pub fn query64(
    alloc: Global,
    message: &Icmp6,
    row: Row,
    ends: &Ends<Addr4>,
) -> Result<Icmp4, NoMemory>
    ensures { IfOk result (λ m. m ≡ query64 message.now row ends.now) }
{
    Ok(Icmp4 {
        kind: row.to_kind,
        code: row.to_code,
        rest: u32::from(ends.ports.src) * (1 << 16) + message.rest % (1 << 16),
        body: message.body.copy(alloc)?,
    })
}

/// An error of this row about this embedded packet, whose pointer has a row (RFC 7915, sections 5.2 and 5.3). The embedded packet
/// gets its inner ends and both ports.
pub fn error64(
    alloc: Global,
    passing: &Passing<Addr4>,
    message: &Icmp6,
    row: Row,
    inner: &Inner6,
) -> Result<Icmp4, NoMemory>
    requires embedded { Stands6 inner.now }
    requires no_query { row.rest ≢ QueryRest }
    requires pointer { LacksPointer64 message.now (Some row) → ⊥ }
    ensures { IfOk result (λ m. option_map
        (λ rest. error64 row rest inner.now passing.now.ends) (rest64 passing.now.mtus message.now.rest row.rest)
        ≡ Some m) }
{
    Ok(Icmp4 {
        kind: row.to_kind,
        code: row.to_code,
        rest: rest64(passing.mtus, message.rest, row.rest),
        body: inner64(alloc, inner, &passing.ends)?,
    })
}

/// The length of a message, as far as a field of 16 bits holds it.
fn declared(len: usize) -> u16
    ensures { result ≡ min len 65535 }
{
    len.min(usize::from(u16::MAX)) as u16
}

/// The packet of these headers with this message in place of its own, between these ends.
pub fn with_message64(
    alloc: Global,
    head: &Head6,
    message: &Icmp4,
    ends: &Ends<Addr4>,
    id: u16,
) -> Result<Bytes, NoMemory>
    requires alive { 1 ≤ head.now.hop }
    requires offset { fragment_offset head.now.frag ≡ 0 }
    ensures { IfOk result (λ octets. octets ≡ with_message64 head.now message.now ends.now id) }
{
    let octets = message.write(alloc)?;
    let outer = Head6 {
        length: declared(octets.as_slice().len()),
        ..*head
    };
    let mut packet = head64(&outer, ends.src, ends.dst, id).write_front(
        alloc,
        octets.as_slice().len(),
    )?;
    packet.extend(octets.as_slice())?;
    Ok(packet)
}

/// The message translated by its row.
fn translated64(
    alloc: Global,
    passing: &Passing<Addr4>,
    message: &Icmp6,
    row: Row,
) -> Result<Icmp4, Fault>
    requires embeds { EmbedsOne64 message.now (Some row) }
    requires pointer { LacksPointer64 message.now (Some row) → ⊥ }
    ensures query { row.rest ≡ QueryRest → IfOk result (λ m. m ≡ query64 message.now row passing.now.ends) }
    ensures error { (inner : Inner) (rest : ℕ) → IsInner6 inner (embedded64 message.now)
        → rest64 passing.now.mtus message.now.rest row.rest ≡ Some rest
        → IfOk result (λ m. m ≡ error64 row rest inner passing.now.ends) }
    ensures no_other { IfErr result (λ f. f ≡ WantsMemory) }
{
    if matches!(row.rest, Rest::Query) {
        return Ok(query64(alloc, message, row, &passing.ends)?);
    }
    let inner = read_inner6(alloc, message.embedded())?;
    Ok(error64(alloc, passing, message, row, &inner)?)
}

/// The packet of these headers with this message, translated to ICMPv4. What a message embeds that has no translation isn't looked
/// at.
fn answer64(
    alloc: Global,
    passing: &Passing<Addr4>,
    head: &Head6,
    message: &Icmp6,
) -> Result<Bytes, Fault>
    requires alive { 1 ≤ head.now.hop }
    requires offset { fragment_offset head.now.frag ≡ 0 }
    requires embeds { MayEmbed64 message.now }
    ensures { IsAnswer64 passing.now head.now message.now result }
{
    let Some(row) = message.row() else {
        return Err(Fault::Drop(Cause::IcmpKind));
    };
    let translated = translated64(alloc, passing, message, row)?;
    Ok(with_message64(alloc, head, &translated, &passing.ends, passing.id)?)
}

/// The ICMPv6 packet translated to ICMPv4, with these addresses and ports (after RFC 7915, sections 5.2 and 5.3). A
/// query gets the source port as its identifier. An error gets both ports in its embedded packet, whose hop limit
/// stays; its extension is dropped. `id` is the identification of a packet without a Fragment Header. All ICMP sums
/// are made anew.
///
/// Refuses as `IcmpKind`, and as nothing else but for want of memory, exactly what has no row in the tables of types,
/// codes and pointers, whatever it embeds. The packet has no other cause for which it is dropped, and a hop limit of at
/// least 2; a query has an upper payload of at most 65,515 octets.
pub fn icmp64(
    alloc: Global,
    mtus: Mtus,
    packet: &[u8],
    ends: &Ends<Addr4>,
    id: u16,
) -> Result<Bytes, Fault>
    requires { IsAccepted64 packet.now }
    ensures { (head : Header) (m : Message) → IsMessage64 head m packet.now
        → IsAnswer64 (record { mtus = mtus; ends = ends.now; id = id }) head m result }
{
    let head = Head6::accepted(packet);
    let message = Icmp6::read(alloc, head.src, head.dst, head.payload(packet))?;
    let passing = Passing {
        mtus,
        ends: *ends,
        id,
    };
    answer64(alloc, &passing, &head, &message)
}
