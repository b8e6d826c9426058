//! Reading a header.

ghost use Rattle.std.specs.Prelude.{◌≡◌, ◌/◌, ◌<◌, ◌≤◌, ◌↔◌, ℕ, List, ◌++◌, length, IfSome, IfNone, IfOk, IfErr};
ghost use Rattle.octets.specs.Field.{octet};
ghost use Rattle.octets.specs.declared.cause.Cause.{Cause as AnyCause};
ghost use Rattle.ip4_packet.specs.declared.head.Head4.{Head4 as Header};
ghost use Rattle.ip4_packet.specs.Options.{routed_in};
ghost use Rattle.ip4_packet.specs.Grammar.{header_len, total_len, option_octets, more_flag, fragment_offset, payload_of4, trimmed4, HasFields4, Is4};
ghost use Rattle.ip4_packet.specs.Causes.{IsTruncated4, IsBadHeader4, HasNoHeaderCause4, IsCause4, StaysRead4};
ghost use Rattle.octets.specs.Bits.{bit_of};

use crate::fault::{
    has_right_sum, header_len, is_no_destination, is_not_ip, is_truncated, total_len,
};
use crate::head::Head4;
use crate::layout::{
    DESTINATION_AT, DONT_FRAGMENT, FRAGMENT_AT, HEADER_LEN, ID_AT, MORE_FRAGMENTS, OFFSETS,
    PROTO_AT, SOURCE_AT, TOS_AT, TTL_AT,
};
use crate::options;
use octets::{Addr4, Cause, is_wrong_fragment, quad_at, word_at};

/// The fragment offset, in units of 8 octets.
fn fragment_offset(octets: &[u8]) -> u16
    requires { 20 ≤ length octets.now }
    ensures value { result ≡ fragment_offset octets.now }
    ensures below { result < 8192 }
{
    word_at(octets, FRAGMENT_AT) % OFFSETS
}

/// The flag "more fragments".
fn has_more(octets: &[u8]) -> bool
    requires { 20 ≤ length octets.now }
    ensures { bit_of result ≡ more_flag octets.now }
{
    word_at(octets, FRAGMENT_AT) / MORE_FRAGMENTS % 2 == 1
}

/// Whether the options have an unspent source route, where header lengths, options and fragment fields
/// agree with one another. None where they don't.
fn agreed(octets: &[u8]) -> Option<bool>
    requires { IsTruncated4 octets.now → ⊥ }
    ensures bad { IfNone result (IsBadHeader4 octets.now) }
    ensures good { IfSome result (λ routed. (IsBadHeader4 octets.now → ⊥) × (routed_in 0 (option_octets octets.now) ≡ Some routed)) }
{
    let head_len = header_len(octets);
    let total = total_len(octets);
    if head_len < HEADER_LEN || total < head_len {
        return None;
    }
    if is_wrong_fragment(fragment_offset(octets), has_more(octets), total - head_len) {
        return None;
    }
    options::routed(&octets[HEADER_LEN..head_len])
}

/// The fields of the header, with this finding on its options.
pub(crate) fn fields(octets: &[u8], routed: bool) -> Head4
    requires long { 20 ≤ length octets.now }
    requires version { octet octets.now 0 / 16 ≡ 4 }
    ensures fields { HasFields4 result octets.now }
    ensures route { result.routed ≡ routed }
{
    Head4 {
        tos: octets[TOS_AT],
        id: word_at(octets, ID_AT),
        df: word_at(octets, FRAGMENT_AT) / DONT_FRAGMENT % 2 == 1,
        mf: has_more(octets),
        offset: fragment_offset(octets),
        ttl: octets[TTL_AT],
        proto: octets[PROTO_AT],
        src: Addr4(quad_at(octets, SOURCE_AT)),
        dst: Addr4(quad_at(octets, DESTINATION_AT)),
        head_len: header_len(octets) as u8,
        total: total_len(octets) as u16,
        routed,
    }
}

/// The header, or the least cause.
fn decided(octets: &[u8]) -> Result<Head4, Cause>
    ensures found { IfOk result (λ h. Is4 h (payload_of4 h octets.now) octets.now × HasNoHeaderCause4 octets.now) }
    ensures refused { IfErr result (λ cause. IsCause4 cause octets.now) }
{
    if is_not_ip(octets) {
        return Err(Cause::NotIp);
    }
    if is_truncated(octets) {
        return Err(Cause::Truncated);
    }
    let Some(routed) = agreed(octets) else {
        return Err(Cause::BadHeader);
    };
    if !has_right_sum(octets) {
        return Err(Cause::BadHeaderSum);
    }
    let head = fields(octets, routed);
    if is_no_destination(head.dst) {
        return Err(Cause::BadDestination);
    }
    Ok(head)
}

impl Head4 {
    /// The header of the packet that these octets hold (RFC 791). The payload is octets `head_len` to
    /// `total`; octets after the total length belong to no packet.
    ///
    /// Of the causes NotIp, Truncated, BadHeader, BadHeaderSum and BadDestination it refuses with the
    /// first that the octets have. No other refusal comes, and octets that have none are read.
    pub fn read(octets: &[u8]) -> Result<Head4, Cause>
        // What is read is what the octets hold, and they have no cause.
        ensures found { IfOk result (λ h. Is4 h (payload_of4 h octets.now) octets.now × HasNoHeaderCause4 octets.now) }
        // What the octets hold is read, where they have no cause.
        ensures only { (h : Header) (payload : List ℕ) → Is4 h payload octets.now → HasNoHeaderCause4 octets.now → result ≡ Ok h }
        // A refusal is the least cause, and the least cause is a refusal.
        ensures refused { (cause : AnyCause) → (result ≡ Err cause) ↔ IsCause4 cause octets.now }
        // Octets that are added at the end change no answer but Truncated, and NotIp of no octet.
        ensures longer { (more : List ℕ) → StaysRead4 result octets.now (octets.now ++ more) }
    {
        decided(octets)
    }

    /// The header of a packet that `read` accepts.
    pub fn accepted(octets: &[u8]) -> Head4
        requires { HasNoHeaderCause4 octets.now }
        ensures found { Is4 result (payload_of4 result octets.now) octets.now }
        ensures only { (h : Header) (payload : List ℕ) → Is4 h payload octets.now → h ≡ result }
    {
        let Ok(head) = Head4::read(octets) else {
            unreachable!();
        };
        head
    }

    /// The packet without the octets after its total length, which belong to no packet. Octets that are
    /// fewer stay as they are.
    pub fn trimmed<'a>(&self, octets: &'a [u8]) -> &'a [u8]
        ensures { result.now ≡ trimmed4 self.now octets.now }
    {
        &octets[..octets.len().min(usize::from(self.total))]
    }
}
