ghost use Rattle.std.specs.Prelude.{◌≡◌, ◌^◌, ◌≤◌, ◌↔◌, ◌⊎◌, List, ℕ, IfOk, IfErr, Err};
ghost use Rattle.octets.specs.declared.cause.Cause.TheVariants.{BadTransport, IcmpSum};
ghost use Rattle.octets.specs.declared.cause.Fault.TheVariants.{Drop as Dropped, NoMemory as WantsMemory};
ghost use Rattle.inet_sum.specs.Sum.{words};
ghost use Rattle.l4_headers.specs.PseudoHeader.{pseudo_header6};
ghost use Rattle.icmp_messages.specs.declared.icmp6.Icmp6.{Icmp6 as Message};
ghost use Rattle.icmp_messages.specs.Message.{IsIcmp6, IsShort, IsWrongSum6, message6};

use crate::check::folded_behind;
use crate::layout::{CODE_AT, FRONT_LEN, KIND_AT, REST_AT, front};
use l4_headers::pseudo_sum6;
use octets::protocol::ICMP6;
use octets::{Addr6, Bytes, Cause, Fault, NoMemory, quad_at};
use std::alloc::Global;

/// An ICMPv6 message (RFC 4443, section 2.1).
#[derive(Debug, Drop)]
pub struct Icmp6 {
    /// The type.
    pub kind: u8,
    pub code: u8,
    /// The four octets behind the sum: identifier and sequence of a query, MTU, pointer.
    pub rest: u32,
    /// What follows: the data of a query, the embedded packet of an error.
    pub body: Bytes,
}

/// The sum of the pseudo header's words for a message of so many octets, whose field has 32 bits (RFC 8200,
/// section 8.1).
fn pseudo_sum(src: Addr6, dst: Addr6, len: usize) -> u64
    ensures value { result ≡ words (pseudo_header6 src dst 58 len) }
    ensures bounded { result ≤ 2 ^ 22 }
{
    pseudo_sum6(src, dst, ICMP6, (len % (1 << 32)) as u32)
}

impl Icmp6 {
    /// The message in these octets, which are the whole payload of an IPv6 packet between these addresses.
    ///
    /// Refuses fewer than 8 octets as `BadTransport`, and then a wrong sum as `IcmpSum`. Any other message
    /// is read, but for want of memory.
    pub fn read(alloc: Global, src: Addr6, dst: Addr6, message: &[u8]) -> Result<Icmp6, Fault>
        ensures found { IfOk result (λ m. IsIcmp6 src dst m message.now) }
        // What the octets hold is read.
        ensures only { (m : Message) → IsIcmp6 src dst m message.now → IfOk result (λ read. read ≡ m) }
        ensures short { (result ≡ Err (Dropped BadTransport)) ↔ IsShort message.now }
        ensures wrong { (result ≡ Err (Dropped IcmpSum)) ↔ IsWrongSum6 src dst message.now }
        ensures no_other { IfErr result (λ f. (f ≡ Dropped BadTransport) ⊎ ((f ≡ Dropped IcmpSum) ⊎ (f ≡ WantsMemory))) }
    {
        if message.len() < FRONT_LEN {
            return Err(Fault::Drop(Cause::BadTransport));
        }
        if folded_behind(pseudo_sum(src, dst, message.len()), message) != u16::MAX {
            return Err(Fault::Drop(Cause::IcmpSum));
        }
        let mut body = Bytes::new(alloc);
        body.extend(&message[FRONT_LEN..])?;
        Ok(Icmp6 {
            kind: message[KIND_AT],
            code: message[CODE_AT],
            rest: quad_at(message, REST_AT),
            body,
        })
    }

    /// The message between these addresses, with its sum.
    pub fn write(&self, alloc: Global, src: Addr6, dst: Addr6) -> Result<Bytes, NoMemory>
        ensures written { IfOk result (λ octets. octets ≡ message6 src dst self.now) }
        // What is written is read again as the same message.
        ensures again { IfOk result (λ octets. IsIcmp6 src dst self.now octets) }
    {
        let Icmp6 {
            kind,
            code,
            rest,
            ref body,
        } = *self;
        let body = body.as_slice();
        let before = pseudo_sum(src, dst, FRONT_LEN + body.len());
        let words = inet_sum::sum(&front(kind, code, rest, 0));
        let check = u16::MAX - folded_behind(before + words, body);
        let mut octets = Bytes::new(alloc);
        octets.extend(&front(kind, code, rest, check))?;
        octets.extend(body)?;
        Ok(octets)
    }
}
