//! What holds of translated messages beyond one call. Each law is the contract of a function that does nothing.

ghost use Rattle.std.specs.Prelude.{◌≡◌, ◌<◌, ◌≤◌, ℕ, List, length, Some};
ghost use Rattle.octets.specs.Field.{word};
ghost use Rattle.octets.specs.declared.address.Addr4.{Addr4 as Address4};
ghost use Rattle.octets.specs.declared.address.Addr6.{Addr6 as Address6};
ghost use Rattle.octets.specs.declared.mtus.Mtus.{Mtus as TheMtus};
ghost use Rattle.octets.specs.declared.proto.Proto.TheVariants.{Udp};
ghost use Rattle.inet_sum.specs.Sum.{IsRight};
ghost use Rattle.icmp_messages.specs.declared.icmp4.Icmp4.{Icmp4 as Message4};
ghost use Rattle.icmp_messages.specs.declared.icmp6.Icmp6.{Icmp6 as Message6};
ghost use Rattle.icmp_messages.specs.declared.inner4.Inner4.{Inner4 as AnyInner4};
ghost use Rattle.icmp_messages.specs.declared.inner6.Inner6.{Inner6 as AnyInner6};
ghost use Rattle.icmp_messages.specs.Inner.{IsInner4, IsInner6};
ghost use Rattle.icmp_messages.specs.Message.{covered6, message4, message6};
ghost use Rattle.xlat46.specs.Fits.{FitsHead};
ghost use Rattle.xlat46.specs.Whole.{ArePorts};
ghost use Rattle.l4_headers.specs.declared.ends.Ends.{Ends as TheEnds};
ghost use Rattle.icmp_messages.specs.declared.table.Row.{Row as TheRow};
ghost use Rattle.icmp_xlat.specs.Icmp46.{error46, rest46};
ghost use Rattle.icmp_messages.specs.Extension.{embedded46, embedded64};
ghost use Rattle.icmp_xlat.specs.Icmp64.{error64, rest64};
ghost use Rattle.icmp_xlat.specs.Inner.{inner46, inner64, Stands4, Stands6};
ghost use Rattle.icmp_xlat.specs.Moved.{moved46, moved64, held6, FitsInnerEnds4, FitsInnerEnds6};
ghost use Rattle.icmp_xlat.specs.Sums.{IsRightIn4, IsRightIn6, HasSum, IsZeroEcho};
ghost use Rattle.icmp_messages.specs.Table.{row_of, table46};

use icmp_messages::{Icmp4, Icmp6};
use octets::Addr6;

/// The sum of a message that was translated to ICMPv4 is right.
pub fn a_translated_icmpv4_sum_is_right(message: &Icmp4)
    ensures { IsRight (message4 message.now) }
{}

/// The sum of a message that was translated to ICMPv6 is right, whatever addresses it gets.
pub fn a_translated_icmpv6_sum_is_right(message: &Icmp6, src: Addr6, dst: Addr6)
    ensures { IsRight (covered6 src dst (message6 src dst message.now)) }
{}

/// Law: a transport sum of an embedded packet that is right stays right where the packet is translated: of TCP where it stands,
/// of UDP where it isn't missing, and of an echo, but for an echo of ICMPv4 of which all is 0 that the sum covers. There 0 is
/// written, where 65535 would be right. A missing sum stays missing.
pub fn a_right_embedded_sum_stays_right_when_translated()
    ensures to_ipv6 { (inner : AnyInner4) (ends : TheEnds Address6) (later : ℕ)
        → Stands4 inner → inner.head.total < 65536 → ArePorts ends.ports → HasSum inner.proto inner.payload
        → IsRightIn4 inner later → IsRightIn6 (moved46 inner ends) later }
    ensures to_ipv4 { (inner : AnyInner6) (ends : TheEnds Address4) (later : ℕ)
        → Stands6 inner → inner.head.length ≤ 65515 → ArePorts ends.ports → HasSum inner.proto inner.payload
        → (IsZeroEcho inner ends later → ⊥) → IsRightIn6 inner later → IsRightIn4 (moved64 inner ends) later }
    ensures zero_echo { (inner : AnyInner6) (ends : TheEnds Address4) (later : ℕ)
        → Stands6 inner → IsZeroEcho inner ends later → IsRightIn6 inner later → word (moved64 inner ends).payload 2 ≡ 0 }
    ensures missing_to_ipv6 { (inner : AnyInner4) (ends : TheEnds Address6)
        → Stands4 inner → inner.proto ≡ Udp → word inner.payload 6 ≡ 0 → word (moved46 inner ends).payload 6 ≡ 0 }
    ensures missing_to_ipv4 { (inner : AnyInner6) (ends : TheEnds Address4)
        → Stands6 inner → inner.proto ≡ Udp → word inner.payload 6 ≡ 0 → word (moved64 inner ends).payload 6 ≡ 0 }
{}

/// Law: read again, a translated embedded packet is the same packet with its new ends: its addresses, ports and header by the
/// tables, its TTL or hop limit, its declared length, and all of its payload that stands. It is so of its octets alone, and in
/// the error that embeds it, which says no length of it (RFC 4884): an ICMPv6 error may hold the beginning of the payload alone.
///
/// IPv4 declares 65,515 octets of payload at most, which is more than any message embeds: the body of an ICMPv6 message, 8
/// octets behind the headers of its packet, has 65,527 at most, and of them the embedded packet's headers take 40 or more.
pub fn a_translated_embedded_packet_is_read_again()
    ensures to_ipv6 { (inner : AnyInner4) (octets : List ℕ) (ends : TheEnds Address6)
        → IsInner4 inner octets → FitsHead inner.head → FitsInnerEnds6 ends
        → IsInner6 (moved46 inner ends) (inner46 inner ends) }
    ensures to_ipv4 { (inner : AnyInner6) (octets : List ℕ) (ends : TheEnds Address4)
        → IsInner6 inner octets → length inner.payload ≤ 65515 → FitsInnerEnds4 ends
        → IsInner4 (moved64 inner ends) (inner64 inner ends) }
    ensures in_message_to_ipv6 { (mtus : TheMtus) (m : Message4) (row : TheRow) (rest : ℕ) (inner : AnyInner4) (ends : TheEnds Address6)
        → row_of table46 m.kind m.code ≡ Some row → rest46 mtus inner.head.total m.rest row.rest ≡ Some rest
        → IsInner4 inner (embedded46 m) → FitsHead inner.head → FitsInnerEnds6 ends
        → IsInner6 (held6 (moved46 inner ends)) (embedded64 (error46 row rest inner ends)) }
    ensures in_message_to_ipv4 { (mtus : TheMtus) (m : Message6) (row : TheRow) (rest : ℕ) (inner : AnyInner6) (ends : TheEnds Address4)
        → rest64 mtus m.rest row.rest ≡ Some rest
        → IsInner6 inner (embedded64 m) → length m.body ≤ 65527 → FitsInnerEnds4 ends
        → IsInner4 (moved64 inner ends) (embedded46 (error64 row rest inner ends)) }
{}
