//! What holds of the definitions of a packet's way beyond one call. Each law is the contract of a function that does nothing.

ghost use Rattle.ip4_packet.specs.declared.head.Head4.{Head4 as Header4};
ghost use Rattle.ip6_packet.specs.declared.head.Head6.{Head6 as Header6};
ghost use Rattle.icmp_messages.specs.declared.icmp4.Icmp4.{Icmp4 as Message4};
ghost use Rattle.icmp_messages.specs.declared.icmp6.Icmp6.{Icmp6 as Message6};
ghost use Rattle.icmp_messages.specs.Rows.{MayEmbed46, MayEmbed64};
ghost use Rattle.icmp_xlat.specs.Icmp46.{IsMessage46};
ghost use Rattle.icmp_xlat.specs.Icmp64.{IsMessage64};
ghost use Rattle.xlat46.specs.Whole.{Parts4 as PartsOf4, HasNoTcpUdpCause4};
ghost use Rattle.xlat64.specs.Whole.{Parts6 as PartsOf6, HasNoTcpUdpCause6};
ghost use Rattle.transit.specs.Accepted.{TakesParts4, TakesParts6, TakesMessage4, TakesMessage6, EmbedsFor4, EmbedsFor6};
ghost use Rattle.std.specs.Prelude.{◌↔◌, Bool, ℕ, List};
ghost use Rattle.octets.specs.declared.address.Addr4.{Addr4 as Address4};
ghost use Rattle.octets.specs.declared.address.Addr6.{Addr6 as Address6};
ghost use Rattle.octets.specs.declared.mtus.Mtus.{Mtus as TheMtus};
ghost use Rattle.l4_headers.specs.declared.ends.Ends.{Ends as TheEnds};
ghost use Rattle.packets.specs.declared.packet4.Packet4.{Packet4 as AnyPacket4};
ghost use Rattle.packets.specs.declared.packet6.Packet6.{Packet6 as AnyPacket6};
ghost use Rattle.packets.specs.OneOf.{IsOneAtMost};
ghost use Rattle.transit.specs.Passage46.{AreCutOf, IsPassage46};
ghost use Rattle.transit.specs.Passage64.{IsPassage64};
ghost use Rattle.icmp_xlat.specs.declared.passing.Passing.{Passing as PassingTo};

/// Law: one thing at most becomes of a packet between given ends.
pub fn a_packet_has_one_passage()
    ensures four { (mtus : TheMtus) (p : AnyPacket4) (payload : List ℕ) (ends : TheEnds Address6)
        → IsOneAtMost (IsPassage46 mtus p payload ends) }
    ensures six { (way : PassingTo Address4) (p : AnyPacket6) (payload : List ℕ) → IsOneAtMost (IsPassage64 way p payload) }
{}

/// Law: octets are cut in one way at most.
pub fn a_packet_is_cut_in_one_way()
    ensures { (octets : List ℕ) (mtu6 id : ℕ) → IsOneAtMost (AreCutOf octets mtu6 id) }
{}

/// Law: a packet of TCP or UDP that has none of the causes for which it is dropped before it is translated is one that a node
/// takes, and the other way round.
pub fn translators_take_the_segments_that_a_node_takes()
    ensures four { (parts : PartsOf4) (octets : List ℕ) → HasNoTcpUdpCause4 parts octets ↔ TakesParts4 parts octets }
    ensures six { (at_relay : Bool) (parts : PartsOf6) (octets : List ℕ) → HasNoTcpUdpCause6 parts octets
        ↔ TakesParts6 at_relay parts octets }
{}

/// Law: an ICMP packet that a node takes, or drops because its message has no translation, is one that the translators take;
/// and one that they take is such a packet where what its message embeds is what a node asks for.
pub fn translators_take_the_messages_that_a_node_takes()
    ensures taken4 { (h : Header4) (m : Message4) (octets : List ℕ) → TakesMessage4 h m octets
        → IsMessage46 h m octets × MayEmbed46 m × EmbedsFor4 h m }
    ensures found4 { (h : Header4) (m : Message4) (octets : List ℕ) → IsMessage46 h m octets → EmbedsFor4 h m → TakesMessage4 h m octets }
    ensures taken6 { (at_relay : Bool) (h : Header6) (m : Message6) (octets : List ℕ)
        → TakesMessage6 at_relay h m octets → IsMessage64 h m octets × MayEmbed64 m × EmbedsFor6 at_relay h m }
    ensures found6 { (at_relay : Bool) (h : Header6) (m : Message6) (octets : List ℕ) → IsMessage64 h m octets
        → EmbedsFor6 at_relay h m → TakesMessage6 at_relay h m octets }
{}
