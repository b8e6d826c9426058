//! Reading the headers.

ghost use Rattle.std.specs.Prelude.{◌≡◌, ◌+◌, ◌/◌, ◌≤◌, ◌↔◌, ℕ, List, ◌++◌, length, IfSome, IfNone, IfOk, IfErr};
ghost use Rattle.octets.specs.Field.{octet, sixteen};
ghost use Rattle.octets.specs.declared.cause.Cause.{Cause as AnyCause};
ghost use Rattle.ip6_packet.specs.declared.head.Head6.{Head6 as Header};
ghost use Rattle.ip6_packet.specs.Grammar.{payload_len, chain_of, payload_of6, trimmed6, HasFields6, Is6};
ghost use Rattle.ip6_packet.specs.Causes.{IsTruncated6, IsBadHeader6, HasNoHeaderCause6, IsCause6, StaysRead6};

use crate::chain::{Chain, chain_of};
use crate::fault::{is_no_destination, is_not_ip, is_truncated, is_wrong_frag, payload_len};
use crate::head::Head6;
use crate::layout::{DESTINATION_AT, HEADER_LEN, HOP_AT, NEXT_AT, SOURCE_AT, VERSION_AT};
use octets::{Addr6, Cause, sixteen_at, word_at};

/// What the chain of extension headers leads to, where it ends within the payload and the fragment fields
/// agree with what is left of it. None where they don't.
fn agreed(octets: &[u8]) -> Option<Chain>
    requires { IsTruncated6 octets.now → ⊥ }
    ensures bad { IfNone result (IsBadHeader6 octets.now) }
    ensures good { IfSome result (λ chain. (IsBadHeader6 octets.now → ⊥) × (chain_of octets.now ≡ Some chain)) }
    ensures within { IfSome result (λ chain. (40 ≤ chain.start) × (chain.start ≤ 40 + payload_len octets.now)) }
{
    let end = HEADER_LEN + payload_len(octets);
    let chain = chain_of(octets[NEXT_AT], &octets[HEADER_LEN..end])?;
    if is_wrong_frag(chain.frag, end - chain.start as usize) {
        return None;
    }
    Some(chain)
}

/// The fields of the headers, the chain of which leads to this.
pub(crate) fn fields(octets: &[u8], chain: Chain) -> Head6
    requires long { 40 ≤ length octets.now }
    requires version { octet octets.now 0 / 16 ≡ 6 }
    requires within { (40 ≤ chain.start) × (chain.start ≤ 40 + payload_len octets.now) }
    ensures fields { HasFields6 result octets.now }
    ensures chain { chain ≡ record { upper = result.upper; start = result.start; frag = result.frag; left = result.left } }
    ensures ends { result.start + result.length ≡ 40 + payload_len octets.now }
{
    Head6 {
        class: (word_at(octets, VERSION_AT) / 16 % 256) as u8,
        hop: octets[HOP_AT],
        src: Addr6(sixteen_at(octets, SOURCE_AT)),
        dst: Addr6(sixteen_at(octets, DESTINATION_AT)),
        upper: chain.upper,
        start: chain.start,
        length: (HEADER_LEN + payload_len(octets) - chain.start as usize) as u16,
        frag: chain.frag,
        left: chain.left,
    }
}

/// The headers, or the least cause.
fn decided(octets: &[u8]) -> Result<Head6, Cause>
    ensures found { IfOk result (λ h. Is6 h (payload_of6 h octets.now) octets.now × HasNoHeaderCause6 octets.now) }
    ensures refused { IfErr result (λ cause. IsCause6 cause octets.now) }
{
    if is_not_ip(octets) {
        return Err(Cause::NotIp);
    }
    if is_truncated(octets) {
        return Err(Cause::Truncated);
    }
    let Some(chain) = agreed(octets) else {
        return Err(Cause::BadHeader);
    };
    let head = fields(octets, chain);
    if is_no_destination(head.dst) {
        return Err(Cause::BadDestination);
    }
    Ok(head)
}

impl Head6 {
    /// The headers of the packet that these octets hold (RFC 8200). The payload is `length` octets from
    /// `start` on; octets after the payload length belong to no packet. The chain goes over Hop-by-Hop
    /// Options (0), Destination Options (60) and Routing headers (43), and ends at a Fragment Header (44) or
    /// at the upper protocol.
    ///
    /// Of the causes NotIp, Truncated, BadHeader and BadDestination it refuses with the first that the octets
    /// have. No other refusal comes, and octets that have none are read.
    pub fn read(octets: &[u8]) -> Result<Head6, Cause>
        // What is read is what the octets hold, and they have no cause.
        ensures found { IfOk result (λ h. Is6 h (payload_of6 h octets.now) octets.now × HasNoHeaderCause6 octets.now) }
        // What the octets hold is read, where they have no cause.
        ensures only { (h : Header) (payload : List ℕ) → Is6 h payload octets.now → HasNoHeaderCause6 octets.now → result ≡ Ok h }
        // A refusal is the least cause, and the least cause is a refusal.
        ensures refused { (cause : AnyCause) → (result ≡ Err cause) ↔ IsCause6 cause octets.now }
        // Octets that are added at the end change no answer but Truncated, and NotIp of no octet.
        ensures longer { (more : List ℕ) → StaysRead6 result octets.now (octets.now ++ more) }
    {
        decided(octets)
    }

    /// The headers of a packet that `read` accepts.
    pub fn accepted(octets: &[u8]) -> Head6
        requires { HasNoHeaderCause6 octets.now }
        ensures found { Is6 result (payload_of6 result octets.now) octets.now }
        ensures only { (h : Header) (payload : List ℕ) → Is6 h payload octets.now → h ≡ result }
    {
        let Ok(head) = Head6::read(octets) else {
            unreachable!();
        };
        head
    }

    /// The packet without the octets after its payload length, which belong to no packet. Octets that are
    /// fewer stay as they are.
    pub fn trimmed<'a>(&self, octets: &'a [u8]) -> &'a [u8]
        ensures { result.now ≡ trimmed6 self.now octets.now }
    {
        let end = self.start as usize + usize::from(self.length);
        &octets[..octets.len().min(end)]
    }
}
