ghost use Rattle.std.specs.Prelude.{◌≡◌, ℕ, ◌<◌, ◌↔◌, IsTrue, Bool, false, List, [], Some, None};
ghost use Rattle.octets.specs.declared.address.Addr4.{Addr4};
ghost use Rattle.octets.specs.declared.cause.Cause.{Cause};
ghost use Rattle.octets.specs.declared.cause.Cause.TheVariants.{NoBasicRule, NoPort, WrongDestination};
ghost use Rattle.octets.specs.declared.parcel.Parcel.{Parcel};
ghost use Rattle.octets.specs.declared.prefix.Prefix6.{Prefix6};
ghost use Rattle.octets.specs.declared.proto.Proto.{Proto};
ghost use Rattle.l4_headers.specs.declared.ports.Ports.{Ports};
ghost use Rattle.rule_book.specs.Holder.{Holder};
ghost use Rattle.nat_model.specs.declared.answer.Answer.TheVariants.{In, Held};
ghost use Rattle.nat_model.specs.declared.ask.Ask.{Ask};
ghost use Rattle.nat_model.specs.declared.ask.Ask.TheVariants.{Inward, Keep, Outward};
ghost use Rattle.nat_model.specs.declared.ask.End4.{End4};
ghost use Rattle.nat_model.specs.declared.ask.Far.{Far};
ghost use Rattle.nat_model.specs.declared.ask.Part.{Part};
ghost use Rattle.nat_model.specs.declared.ask.Part.TheVariants.{Whole};
ghost use Rattle.nat_model.specs.declared.binding.Binding.{Binding};
ghost use Rattle.nat_model.specs.Claim.{Wish, claimed_port};
ghost use Rattle.nat_model.specs.Delivered.{gone_by, FindsNoPort, IsDelivered, IsDeliveredAlone};
ghost use Rattle.nat_model.specs.Fragment.{part_of};
ghost use Rattle.nat_model.specs.Kind.{IsAnswerTo, IsFirst, IsLater, MayRefuse};
ghost use Rattle.nat_model.specs.State.{NatState, Moment, holder_at};
ghost use Rattle.nat_model.specs.Machine.{nat, arrives};
ghost use Rattle.nat_model.specs.Refusal.{cause_in, proto_of, settled, of_others, IsFull};
ghost use Rattle.nat_model.specs.Run.{Asked, state_after};
ghost use Rattle.nat_model.specs.Sound.{IsSound};
ghost use Rattle.nat_model.specs.Waiting.{freed_of};

/// Law: after any asks, two bindings of one protocol never share an outside port or a host end, and the holder may
/// claim the port of each, where this holds at the start.
pub fn two_bindings_never_share_a_port()
    ensures step { (prefix : Prefix6) (s : NatState) (m : Moment) (ask : Ask)
        → IsSound prefix s
        → IsSound prefix (nat prefix s m ask).after }
    ensures run { (prefix : Prefix6) (place : ℕ) (s : NatState) (asks : List Asked)
        → IsSound prefix s
        → IsSound prefix (state_after prefix place s asks) }
{}

/// Law: an inward packet that is let in was sent to the edge's own address, and goes to the host end of the first unexpired
/// binding that has its protocol and the outside port that it goes by: its own where it is whole or a first fragment, and
/// that of its first fragment where it is a later one. It is the one binding that has them, where two bindings never share
/// a port, as in each state of a machine. Fragments that it frees have its answer, and so go there too.
pub fn what_comes_in_goes_to_the_binding_with_its_port()
    ensures delivered { (prefix : Prefix6) (s : NatState) (m : Moment) (fault : Bool) (proto : Proto) (port flags : ℕ) (far : Far)
        (part : Part) (to from peer : Addr4) (host_port : ℕ) (freed : List Parcel)
        → (nat prefix s m (Inward fault proto port far flags part)).answer ≡ In to host_port from peer freed
        → IsDelivered prefix (settled prefix s m) proto far
        (gone_by (settled prefix s m) m.place (Inward fault proto port far flags part))
        (record { addr = to; port = host_port }) }
    ensures alone { (prefix : Prefix6) (s : NatState) (m : Moment) (fault : Bool) (proto : Proto) (port flags : ℕ) (far : Far)
        (part : Part) (to from peer : Addr4) (host_port : ℕ) (freed : List Parcel)
        → IsSound prefix s
        → (nat prefix s m (Inward fault proto port far flags part)).answer ≡ In to host_port from peer freed
        → IsDeliveredAlone (settled prefix s m) proto
        (gone_by (settled prefix s m) m.place (Inward fault proto port far flags part))
        (record { addr = to; port = host_port }) }
{}

/// Law: a claim finds no port exactly where bindings of the protocol have every port that the edge may claim.
pub fn no_port_is_left_exactly_where_all_are_bound()
    ensures { (h : Holder) (wish : Wish) (bs : List Binding)
        → wish.port < 65536
        → claimed_port h wish bs ≡ None ↔ IsFull h wish.proto bs }
{}

/// Law: a step leaves the bindings of other protocols alone, but for those that its time ends and its rules drop.
pub fn other_protocols_keep_their_bindings()
    ensures { (prefix : Prefix6) (s : NatState) (m : Moment) (ask : Ask)
        → of_others (proto_of ask) (nat prefix s m ask).after.bindings ≡ of_others (proto_of ask) (settled prefix s m).bindings }
{}

/// Law: a step is refused for want of a rule exactly where the edge holds nothing, and for its destination exactly
/// where it holds something and the packet is for another.
pub fn a_holder_and_a_destination_are_tested_first()
    ensures no_rule { (prefix : Prefix6) (s : NatState) (m : Moment) (ask : Ask)
        → cause_in (nat prefix s m ask).answer ≡ Some NoBasicRule ↔ holder_at prefix (settled prefix s m) ≡ None }
    ensures destination { (prefix : Prefix6) (s : NatState) (m : Moment) (ask : Ask) (h : Holder)
        → holder_at prefix (settled prefix s m) ≡ Some h
        → cause_in (nat prefix s m ask).answer ≡ Some WrongDestination ↔ arrives h ask ≡ false }
{}

/// Law: an outward flow of an edge that holds something, whole or a fragment, is refused for want of a port exactly where it
/// goes by ports for which its host end has no binding, and unexpired bindings of its protocol have every port that the edge
/// may claim. So is a port that is to be kept.
pub fn a_flow_finds_no_port_exactly_where_all_are_bound()
    ensures flow { (prefix : Prefix6) (s : NatState) (m : Moment) (h : Holder) (proto : Proto) (near far : End4) (flags : ℕ) (part : Part)
        → holder_at prefix (settled prefix s m) ≡ Some h
        → ((ports : Ports) → gone_by (settled prefix s m) m.place (Outward false proto near far flags part)
        ≡ Some ports → ports.src < 65536)
        → cause_in (nat prefix s m (Outward false proto near far flags part)).answer ≡ Some NoPort
        ↔ ((ports : Ports)
        × (gone_by (settled prefix s m) m.place (Outward false proto near far flags part) ≡ Some ports)
        × FindsNoPort h (settled prefix s m).bindings proto (record near { port = ports.src })) }
    ensures whole { (prefix : Prefix6) (s : NatState) (m : Moment) (h : Holder) (proto : Proto) (near far : End4) (flags : ℕ)
        → holder_at prefix (settled prefix s m) ≡ Some h
        → near.port < 65536
        → cause_in (nat prefix s m (Outward false proto near far flags Whole)).answer ≡ Some NoPort
        ↔ FindsNoPort h (settled prefix s m).bindings proto near }
    ensures keep { (prefix : Prefix6) (s : NatState) (m : Moment) (h : Holder) (proto : Proto) (host : Addr4) (host_port port until : ℕ)
        → holder_at prefix (settled prefix s m) ≡ Some h
        → port < 65536
        → cause_in (nat prefix s m (Keep proto host host_port port until)).answer ≡ Some NoPort
        ↔ FindsNoPort h (settled prefix s m).bindings proto (record { addr = host; port = host_port }) }
{}

/// Law: whatever the state and the moment are, each ask has an answer of its kind, and is refused for a cause that such an
/// ask may have. Only a later fragment waits, and only a first one frees.
pub fn each_ask_has_an_answer_of_its_kind()
    ensures kind { (prefix : Prefix6) (s : NatState) (m : Moment) (ask : Ask) → IsAnswerTo ask (nat prefix s m ask).answer }
    ensures cause { (prefix : Prefix6) (s : NatState) (m : Moment) (ask : Ask) (cause : Cause)
        → cause_in (nat prefix s m ask).answer ≡ Some cause
        → MayRefuse cause ask }
    ensures held { (prefix : Prefix6) (s : NatState) (m : Moment) (ask : Ask)
        → (nat prefix s m ask).answer ≡ Held
        → IsLater (part_of ask) }
    ensures freed { (prefix : Prefix6) (s : NatState) (m : Moment) (ask : Ask)
        → ¬ (freed_of (nat prefix s m ask).answer ≡ [])
        → IsFirst (part_of ask) }
{}
