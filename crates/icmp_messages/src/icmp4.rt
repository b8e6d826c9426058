ghost use Rattle.std.specs.Prelude.{◌≡◌, ◌↔◌, ◌⊎◌, List, ℕ, IfOk, IfErr, Err};
ghost use Rattle.octets.specs.declared.cause.Cause.TheVariants.{BadTransport, IcmpSum};
ghost use Rattle.octets.specs.declared.cause.Fault.TheVariants.{Drop as Dropped, NoMemory as WantsMemory};
ghost use Rattle.icmp_messages.specs.declared.icmp4.Icmp4.{Icmp4 as Message};
ghost use Rattle.icmp_messages.specs.Message.{IsIcmp4, IsShort, IsWrongSum4, message4};

use crate::check::folded_behind;
use crate::layout::{CODE_AT, FRONT_LEN, KIND_AT, REST_AT, front};
use octets::{Bytes, Cause, Fault, NoMemory, quad_at};
use std::alloc::Global;

/// An ICMPv4 message (RFC 792).
#[derive(Debug, Drop)]
pub struct Icmp4 {
    /// The type.
    pub kind: u8,
    pub code: u8,
    /// The four octets behind the sum: identifier and sequence of a query, MTU, pointer.
    pub rest: u32,
    /// What follows: the data of a query, the embedded packet of an error.
    pub body: Bytes,
}

impl Icmp4 {
    /// The message in these octets, which are the whole payload of an IPv4 packet.
    ///
    /// Refuses fewer than 8 octets as `BadTransport`, and then a wrong sum as `IcmpSum`. Any other message
    /// is read, but for want of memory.
    pub fn read(alloc: Global, message: &[u8]) -> Result<Icmp4, Fault>
        ensures found { IfOk result (λ m. IsIcmp4 m message.now) }
        // What the octets hold is read.
        ensures only { (m : Message) → IsIcmp4 m message.now → IfOk result (λ read. read ≡ m) }
        ensures short { (result ≡ Err (Dropped BadTransport)) ↔ IsShort message.now }
        ensures wrong { (result ≡ Err (Dropped IcmpSum)) ↔ IsWrongSum4 message.now }
        ensures no_other { IfErr result (λ f. (f ≡ Dropped BadTransport) ⊎ ((f ≡ Dropped IcmpSum) ⊎ (f ≡ WantsMemory))) }
    {
        if message.len() < FRONT_LEN {
            return Err(Fault::Drop(Cause::BadTransport));
        }
        if folded_behind(0, message) != u16::MAX {
            return Err(Fault::Drop(Cause::IcmpSum));
        }
        let mut body = Bytes::new(alloc);
        body.extend(&message[FRONT_LEN..])?;
        Ok(Icmp4 {
            kind: message[KIND_AT],
            code: message[CODE_AT],
            rest: quad_at(message, REST_AT),
            body,
        })
    }

    /// The message with its sum.
    pub fn write(&self, alloc: Global) -> Result<Bytes, NoMemory>
        ensures written { IfOk result (λ octets. octets ≡ message4 self.now) }
        // What is written is read again as the same message.
        ensures again { IfOk result (λ octets. IsIcmp4 self.now octets) }
    {
        let Icmp4 {
            kind,
            code,
            rest,
            ref body,
        } = *self;
        let body = body.as_slice();
        let words = inet_sum::sum(&front(kind, code, rest, 0));
        let check = u16::MAX - folded_behind(words, body);
        let mut octets = Bytes::new(alloc);
        octets.extend(&front(kind, code, rest, check))?;
        octets.extend(body)?;
        Ok(octets)
    }
}
