ghost use Rattle.std.specs.Prelude.{◌≡◌, ◌≤◌, ◌↔◌, ◌⊎◌, IsTrue, List, ℕ, length, IfSome, IfNone, IfOk, IfErr, Err};
ghost use Rattle.octets.specs.declared.proto.Proto.{Proto as AnyProto};
ghost use Rattle.octets.specs.declared.cause.Cause.TheVariants.{BadInner};
ghost use Rattle.octets.specs.declared.cause.Fault.TheVariants.{Drop as Dropped, NoMemory as WantsMemory};
ghost use Rattle.icmp_messages.specs.declared.inner6.Inner6.{Inner6 as Inner};
ghost use Rattle.icmp_messages.specs.Inner.{IsEcho6, IsCarried6, IsInner6, IsBadInner6};

use crate::layout::{CODE_AT, FRONT_LEN, KIND_AT};
use ip6_packet::Head6;
use l4_headers::{Ports, read_ports};
use octets::icmp_type::{ECHO_REPLY6, ECHO_REQUEST6};
use octets::{Bytes, Cause, Fault, Proto};
use std::alloc::Global;

/// The packet that an ICMPv6 error embeds (RFC 4443, section 2.4).
#[derive(Debug, Drop)]
pub struct Inner6 {
    /// Its headers as they stand. `length` is the declared one, also where fewer octets stand.
    pub head: Head6,
    /// What stands of its payload, at least 8 octets.
    pub payload: Bytes,
    /// Its ports. Both are the identifier of an echo.
    pub ports: Ports,
    pub proto: Proto,
}

/// An echo request or reply, with code 0 (RFC 4443, section 4).
fn is_echo(message: &[u8]) -> bool
    requires { 8 ≤ length message.now }
    ensures { IsTrue result ↔ IsEcho6 message.now }
{
    let kind = message[KIND_AT];
    (kind == ECHO_REQUEST6 || kind == ECHO_REPLY6) && message[CODE_AT] == 0
}

/// The protocol of this number, where a packet of it with this payload may be embedded: TCP, UDP, or an
/// echo of ICMP.
fn carried(number: u8, payload: &[u8]) -> Option<Proto>
    requires { 8 ≤ length payload.now }
    ensures some { IfSome result (λ proto. IsCarried6 proto number payload.now) }
    ensures none { IfNone result ((proto : AnyProto) → IsCarried6 proto number payload.now → ⊥) }
{
    match Proto::of6(number)? {
        Proto::Icmp if !is_echo(payload) => None,
        proto => Some(proto),
    }
}

/// The packet that an ICMPv6 error embeds (RFC 4443, section 2.4), at the front of these octets. Octets
/// past its declared end are cut off first.
///
/// Refuses it as `BadInner`, and as nothing else but for want of memory, exactly where no IPv6 header with
/// a whole chain stands there, fewer than 8 octets stand behind it, it is a later fragment, or its protocol
/// is neither TCP nor UDP nor an echo of ICMPv6. Sums and fragment fields beyond the offset aren't looked
/// at, nor whether its addresses agree with those of the outer packet.
pub fn read_inner6(alloc: Global, octets: &[u8]) -> Result<Inner6, Fault>
    ensures found { IfOk result (λ inner. IsInner6 inner octets.now) }
    // What the octets hold is read.
    ensures only { (inner : Inner) → IsInner6 inner octets.now → IfOk result (λ read. read ≡ inner) }
    ensures refused { (result ≡ Err (Dropped BadInner)) ↔ IsBadInner6 octets.now }
    ensures no_other { IfErr result (λ f. (f ≡ Dropped BadInner) ⊎ (f ≡ WantsMemory)) }
{
    let Some(head) = Head6::read_embedded(octets) else {
        return Err(Fault::Drop(Cause::BadInner));
    };
    let payload = head.payload(octets);
    if payload.len() < FRONT_LEN || head.fragment_offset() != 0 {
        return Err(Fault::Drop(Cause::BadInner));
    }
    let Some(proto) = carried(head.upper, payload) else {
        return Err(Fault::Drop(Cause::BadInner));
    };
    let ports = read_ports(proto, payload);
    let mut standing = Bytes::new(alloc);
    standing.extend(payload)?;
    Ok(Inner6 {
        head,
        payload: standing,
        ports,
        proto,
    })
}
