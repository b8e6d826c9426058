ghost use Rattle.std.specs.Prelude.{◌≡◌, ◌≤◌, ◌↔◌, ◌⊎◌, IsTrue, List, ℕ, length, IfSome, IfNone, IfOk, IfErr, Err};
ghost use Rattle.octets.specs.declared.proto.Proto.{Proto as AnyProto};
ghost use Rattle.octets.specs.declared.cause.Cause.TheVariants.{BadInner};
ghost use Rattle.octets.specs.declared.cause.Fault.TheVariants.{Drop as Dropped, NoMemory as WantsMemory};
ghost use Rattle.icmp_messages.specs.declared.inner4.Inner4.{Inner4 as Inner};
ghost use Rattle.icmp_messages.specs.Inner.{IsEcho4, IsCarried4, IsInner4, IsBadInner4};

use crate::layout::{CODE_AT, FRONT_LEN, KIND_AT};
use ip4_packet::Head4;
use l4_headers::{Ports, read_ports};
use octets::icmp_type::{ECHO_REPLY4, ECHO_REQUEST4};
use octets::{Bytes, Cause, Fault, Proto};
use std::alloc::Global;

/// The packet that an ICMPv4 error embeds (RFC 792).
#[derive(Debug, Drop)]
pub struct Inner4 {
    /// Its header as it stands. `total` is the declared one, also where fewer octets stand, and `routed` is
    /// false, since options aren't looked at.
    pub head: Head4,
    /// What stands of its payload, at least 8 octets.
    pub payload: Bytes,
    /// Its ports. Both are the identifier of an echo.
    pub ports: Ports,
    pub proto: Proto,
}

/// An echo request or reply, with code 0 (RFC 792).
fn is_echo(message: &[u8]) -> bool
    requires { 8 ≤ length message.now }
    ensures { IsTrue result ↔ IsEcho4 message.now }
{
    let kind = message[KIND_AT];
    (kind == ECHO_REQUEST4 || kind == ECHO_REPLY4) && message[CODE_AT] == 0
}

/// The protocol of this number, where a packet of it with this payload may be embedded: TCP, UDP, or an
/// echo of ICMP.
fn carried(number: u8, payload: &[u8]) -> Option<Proto>
    requires { 8 ≤ length payload.now }
    ensures some { IfSome result (λ proto. IsCarried4 proto number payload.now) }
    ensures none { IfNone result ((proto : AnyProto) → IsCarried4 proto number payload.now → ⊥) }
{
    match Proto::of4(number)? {
        Proto::Icmp if !is_echo(payload) => None,
        proto => Some(proto),
    }
}

/// The packet that an ICMPv4 error embeds (RFC 792), at the front of these octets. Octets past its
/// declared end are cut off first.
///
/// Refuses it as `BadInner`, and as nothing else but for want of memory, exactly where no whole header
/// stands there, fewer than 8 octets stand behind it, it is a later fragment, or its protocol is neither
/// TCP nor UDP nor an echo of ICMP. Sums, options and fragment fields beyond the offset aren't looked at,
/// nor whether its addresses agree with those of the outer packet.
pub fn read_inner4(alloc: Global, octets: &[u8]) -> Result<Inner4, Fault>
    ensures found { IfOk result (λ inner. IsInner4 inner octets.now) }
    // What the octets hold is read.
    ensures only { (inner : Inner) → IsInner4 inner octets.now → IfOk result (λ read. read ≡ inner) }
    ensures refused { (result ≡ Err (Dropped BadInner)) ↔ IsBadInner4 octets.now }
    ensures no_other { IfErr result (λ f. (f ≡ Dropped BadInner) ⊎ (f ≡ WantsMemory)) }
{
    let Some(head) = Head4::read_embedded(octets) else {
        return Err(Fault::Drop(Cause::BadInner));
    };
    let payload = head.payload(octets);
    if payload.len() < FRONT_LEN || head.offset != 0 {
        return Err(Fault::Drop(Cause::BadInner));
    }
    let Some(proto) = carried(head.proto, payload) else {
        return Err(Fault::Drop(Cause::BadInner));
    };
    let ports = read_ports(proto, payload);
    let mut standing = Bytes::new(alloc);
    standing.extend(payload)?;
    Ok(Inner4 {
        head,
        payload: standing,
        ports,
        proto,
    })
}
