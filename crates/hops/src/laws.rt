//! What holds of the definitions of a hop. Each law is the contract of a function that does nothing.

ghost use Rattle.std.specs.Prelude.{ℕ, List, Option};
ghost use Rattle.octets.specs.declared.address.Addr4.{Addr4 as Address4};
ghost use Rattle.octets.specs.declared.address.Addr6.{Addr6 as Address6};
ghost use Rattle.ip4_packet.specs.declared.head.Head4.{Head4 as Header4};
ghost use Rattle.ip6_packet.specs.declared.head.Head6.{Head6 as Header6};
ghost use Rattle.packet_faults.specs.declared.notice.Notice.{Notice as AnyNotice};
ghost use Rattle.packets.specs.OneOf.{IsOneAtMost};
ghost use Rattle.hops.specs.declared.answering.Answering.{Answering as AnsweringOf};
ghost use Rattle.hops.specs.Reply.{IsAnswer4, IsAnswer6};

/// Law: a packet that is dropped has one answer at most.
pub fn a_dropped_packet_has_one_answer()
    ensures four { (h : Header4) (packet : List ℕ) (from : AnsweringOf Address4) (what : Option AnyNotice)
        → IsOneAtMost (IsAnswer4 h packet from what) }
    ensures six { (h : Header6) (packet : List ℕ) (from : AnsweringOf Address6) (what : Option AnyNotice)
        → IsOneAtMost (IsAnswer6 h packet from what) }
{}
