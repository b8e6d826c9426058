//! What holds of turned packets beyond one call. Each law is the contract of a function that does nothing.

ghost use Rattle.std.specs.Prelude.{◌≡◌, ◌≢◌, ℕ, ◌^◌, ◌<◌, List};
ghost use Rattle.octets.specs.Field.{word};
ghost use Rattle.octets.specs.declared.proto.Proto.{Proto as AnyProto};
ghost use Rattle.octets.specs.declared.proto.Proto.TheVariants.{Udp};
ghost use Rattle.inet_sum.specs.Sum.{IsRight};
ghost use Rattle.ip4_packet.specs.declared.head.Head4.{Head4 as Header};
ghost use Rattle.l4_headers.specs.declared.ports.L4.{L4 as Transport};
ghost use Rattle.l4_headers.specs.PseudoHeader.{pseudo_header4, IsRightOver};
ghost use Rattle.icmp_messages.specs.declared.icmp4.Icmp4.{Icmp4 as Message};
ghost use Rattle.icmp_messages.specs.declared.inner4.Inner4.{Inner4 as Inner};
ghost use Rattle.icmp_messages.specs.Inner.{IsInner4};
ghost use Rattle.icmp_messages.specs.declared.table.Row.{Row as TheRow};
ghost use Rattle.icmp_messages.specs.Extension.{embedded46};
ghost use Rattle.icmp_xlat.specs.Sums.{IsRightIn4, HasSum};
ghost use Rattle.packets.specs.declared.packet4.Content4.TheVariants.{Query, Error};
ghost use Rattle.packets.specs.Packet4.{IsSegment4};
ghost use Rattle.turned_packets.specs.Ends.{NewEnd as TheNewEnd, with_address};
ghost use Rattle.turned_packets.specs.Segment.{PortsFit, turned_segment};
ghost use Rattle.turned_packets.specs.Sums.{turned_inner, with_embedded, IsZeroEcho};
ghost use Rattle.turned_packets.specs.Turned.{turned_payload};

/// A TCP or UDP sum that is right stays right, but for a UDP sum that is missing. It does so in a whole packet and in a
/// first fragment, whose length is that of all fragments together.
pub fn a_right_sum_stays_right_when_turned()
    ensures { (new : TheNewEnd) (h : Header) (proto : AnyProto) (l4 : Transport) (payload : List ℕ) (len later : ℕ)
        → IsSegment4 h payload proto l4 → (proto ≡ Udp → word payload 6 ≢ 0) → PortsFit new l4.ports → len < 65536
        → IsRightOver (pseudo_header4 h.src h.dst h.proto len) payload later
        → let there = with_address new.end new.addr h in IsRightOver (pseudo_header4 there.src there.dst h.proto len)
        (turned_segment new h proto l4 payload) later }
{}

/// The sum of a turned ICMP message is right, whatever is in its body.
pub fn a_turned_icmp_sum_is_right()
    ensures query { (new : TheNewEnd) (h : Header) (payload : List ℕ) (m : Message) (row : TheRow)
        → IsRight (turned_payload new h payload (Query m row)) }
    ensures error { (new : TheNewEnd) (h : Header) (payload : List ℕ) (m : Message) (row : TheRow) (inner : Inner)
        → IsRight (turned_payload new h payload (Error m row inner)) }
{}

/// Law: a transport sum of an embedded packet that is right stays right where the packet is turned: of TCP where it stands, of
/// UDP where it isn't missing, and of an echo, but for one of which all is 0 that the sum covers. There 0 is written, where
/// 65535 would be right. A missing sum stays missing.
pub fn a_right_embedded_sum_stays_right_when_turned()
    ensures right { (new : TheNewEnd) (inner : Inner) (octets : List ℕ) (later : ℕ) → IsInner4 inner octets
        → inner.head.total < 65536 → new.port < 65536 → HasSum inner.proto inner.payload
        → (IsZeroEcho new inner later → ⊥) → IsRightIn4 inner later → IsRightIn4 (turned_inner new inner) later }
    ensures zero_echo { (new : TheNewEnd) (inner : Inner) (octets : List ℕ) (later : ℕ) → IsInner4 inner octets
        → IsZeroEcho new inner later → IsRightIn4 inner later → word (turned_inner new inner).payload 2 ≡ 0 }
    ensures missing { (new : TheNewEnd) (inner : Inner) (octets : List ℕ) → IsInner4 inner octets → inner.proto ≡ Udp
        → word inner.payload 6 ≡ 0 → word (turned_inner new inner).payload 6 ≡ 0 }
{}

/// Law: read again, the packet that a turned error embeds is the same with one end replaced: its address, its port, and the sums
/// that cover them where they stand.
pub fn a_turned_embedded_packet_is_read_again()
    ensures { (new : TheNewEnd) (m : Message) (inner : Inner) → IsInner4 inner (embedded46 m) → new.addr.0 < 2 ^ 32
        → new.port < 65536 → IsInner4 (turned_inner new inner) (embedded46 (with_embedded new m inner)) }
{}
