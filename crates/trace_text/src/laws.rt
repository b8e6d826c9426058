//! What holds of every packet that crosses the domain. Each law is the contract of a function that does nothing.

ghost use Rattle.std.specs.Prelude.{◌≡◌, ℕ, true, false, List, [], ◌∷◌, slice_get, Option, Some};
ghost use Rattle.octets.specs.declared.address.Addr4.{Addr4};
ghost use Rattle.octets.specs.declared.address.Addr6.{Addr6};
ghost use Rattle.octets.specs.declared.parcel.Parcel.{Parcel};
ghost use Rattle.octets.specs.declared.prefix.Prefix6.{Prefix6};
ghost use Rattle.std.specs.List.{All};
ghost use Rattle.l4_headers.specs.declared.ports.Ports.{Ports};
ghost use Rattle.map_rules.specs.declared.rule.Rule.{Rule};
ghost use Rattle.map_rules.specs.declared.dmr.Dmr.{Dmr};
ghost use Rattle.map_rules.specs.Embedding.{extract_of};
ghost use Rattle.rule_book.specs.declared.view.FarOf.TheVariants.{Addr};
ghost use Rattle.rule_book.specs.Far.{far_of};
ghost use Rattle.nat_model.specs.declared.answer.Answer.{Answer};
ghost use Rattle.nat_model.specs.declared.ask.Ask.{Ask};
ghost use Rattle.nat_model.specs.declared.entry.Entry.{Entry};
ghost use Rattle.nat_model.specs.History.{EdgeStart, IsGood, replay};
ghost use Rattle.nat_model.specs.Machine.{nat};
ghost use Rattle.nat_model.specs.State.{Generation, NatState, Moment};
ghost use Rattle.nat_model.specs.declared.answer.Answer.TheVariants.{Out as LetOut, In as LetIn};
ghost use Rattle.packets.specs.declared.packet4.Packet4.{Packet4};
ghost use Rattle.packets.specs.declared.packet6.Packet6.{Packet6};
ghost use Rattle.packets.specs.Asked.{flow_of4, flow_of6, key_of4, key_of6};
ghost use Rattle.ip6_packet.specs.Fragment.{IsFragment6};
ghost use Rattle.packets.specs.Packet6.{IsPacket6};
ghost use Rattle.edge_node.specs.Asked.{outward, inward, near_addr6, IsAsk};
ghost use Rattle.edge_node.specs.declared.way.Way.{Way};
ghost use Rattle.relay_node.specs.Asked.{IsTold};
ghost use Rattle.relay_node.specs.Hop.{IsRelayHop};
ghost use Rattle.relay_node.specs.FromAccess.{Becomes6, IsLaterFragment6};
ghost use Rattle.relay_node.specs.FromIpv4.{Becomes4, IsLaterFragment4};
ghost use Rattle.relay_node.specs.Relay.{Relay};
ghost use Rattle.hops.specs.declared.hop.Hop.{Hop};
ghost use Rattle.hops.specs.declared.hop.Out.{Out};
ghost use Rattle.hops.specs.declared.hop.Out.TheVariants.{Lan as OverLan, Access as OverAccess};
ghost use Rattle.frag_table.specs.declared.answer.FragAnswer.{FragAnswer};
ghost use Rattle.nat_model.specs.Waiting.{freed_of};
ghost use Rattle.edge_node.specs.declared.way.EdgeParams.{EdgeParams};
ghost use Rattle.edge_node.specs.declared.way.Node.{Node};
ghost use Rattle.edge_node.specs.declared.way.Way.TheVariants.{Lan, Access};
ghost use Rattle.edge_node.specs.Hop.{FromLan, FromAccess, IsLaterAt, IsEdgeHop};
ghost use Rattle.trace_text.specs.Hops.{AreOctets, ArePortsOf4, ArePortsOf6};
ghost use Rattle.trace_text.specs.Relayed.{IsRelayed4, IsRelayed6};
ghost use Rattle.trace_text.specs.Emitted.{IsSentOut, IsTakenIn};
ghost use Rattle.trace_text.specs.Onward.{freed_with, IsOfHop, EdgeEmits, EdgeDelivers, RelayEmits, RelayDelivers, IsOnIpv4};
ghost use Rattle.trace_text.specs.Answered.{Step, AnsweredOut, AnsweredIn, answer_to};
ghost use Rattle.rule_book.specs.Valid.{FitBook};
ghost use Rattle.trace_text.specs.Numbers.{FitsState, FitsAsk, FitsAnswer, FitsStart};
ghost use Rattle.trace_text.specs.Behind.{ipv4_behind};
ghost use Rattle.trace_text.specs.Crossings.{Passed, Setting, EdgeAnswer, ToRelay, FromRelay, EdgeToEdge, IsOneStep, IsNumbered, IsRelayOf, HasCrossed, EdgeLetsOut, EdgeLetsIn};
ghost use Rattle.trace_text.specs.Pieces.{PassedInPieces, PiecesToRelay, PiecesFromRelay, PiecesBetweenEdges, ArriveWhole};

/// From an edge to the relay: what the relay sends to the core is the host's packet with the address and port of the machine's
/// answer, but for the named header changes.
pub fn a_packet_to_the_relay_is_one_step()
    ensures { (setting : Setting) (step : Step) (answer : Answer) (relay : Relay) (c : Passed)
        → ToRelay setting step answer relay c → IsOneStep setting (answer ∷ []) c }
{}

/// From the relay to an edge: what the edge sends to its LAN is the packet of the core with the host and port of the machine's
/// answer, but for the named header changes.
pub fn a_packet_from_the_relay_is_one_step()
    ensures { (setting : Setting) (relay : Relay) (step : Step) (answer : Answer) (c : Passed)
        → FromRelay setting relay step answer c → IsOneStep setting (answer ∷ []) c }
{}

/// From an edge to an edge, by a forwarding rule: what the second edge sends to its LAN is the first host's packet with what both
/// machines' answers replace, one after the other, but for the named header changes.
pub fn a_packet_between_edges_is_two_steps()
    ensures { (setting : Setting) (one other : EdgeAnswer) (c : Passed)
        → EdgeToEdge setting one other c → IsOneStep setting (one.answer ∷ other.answer ∷ []) c }
{}

/// A packet that an edge cuts, and of which the relay drops and holds no piece: what the relay sends of them is the whole payload
/// with no gap, each piece at its place.
pub fn pieces_to_the_relay_arrive_whole()
    ensures { (setting : Setting) (edge : EdgeAnswer) (sent_as : Packet4) (c : PassedInPieces)
        → PiecesToRelay setting edge sent_as c → ArriveWhole setting c }
{}

/// The same of a packet that the relay cuts. Each piece is for the host and port of the edge's own answer to it.
pub fn pieces_from_the_relay_arrive_whole()
    ensures { (setting : Setting) (relay : Relay) (c : PassedInPieces) → PiecesFromRelay setting relay c → ArriveWhole setting c }
{}

/// The same of a packet that goes from an edge to an edge.
pub fn pieces_between_edges_arrive_whole()
    ensures { (setting : Setting) (edge : EdgeAnswer) (sent_as : Packet4) (c : PassedInPieces)
        → PiecesBetweenEdges setting edge sent_as c → ArriveWhole setting c }
{}

/// An IPv6 source that is accepted, outer or embedded, is inside the default mapping rule and embeds the IPv4 address, or is a
/// MAP address and holds it in its bits 80 to 111. So all generations of rules give it one IPv4 address, since the default
/// mapping rule never changes.
pub fn an_accepted_source_holds_its_ipv4_address()
    ensures { (rules : List Rule) (dmr : Dmr) (s port : ℕ) (a : Addr4) → far_of rules dmr s port ≡ Addr a → ipv4_behind dmr s ≡ Some a.0 }
{}

/// A destination that the relay accepts embeds the IPv4 address, and is inside the default mapping rule.
pub fn an_accepted_destination_holds_its_ipv4_address()
    ensures { (dmr : Dmr) (s addr : ℕ) → extract_of dmr.prefix.bits dmr.prefix.len s ≡ Some addr → ipv4_behind dmr s ≡ Some addr }
{}

/// What the hop of the relay does with a packet from the access network: it is lost, without an answer, or received as the laws
/// of crossings say, and then leaves, or is dropped with an answer.
pub fn the_relay_receives_what_it_does_not_lose()
    ensures { (relay : Relay) (q : Packet6) (six : List ℕ) (ports : Ports) (hop : Hop)
        → ArePortsOf6 q.content ports → Becomes6 relay q six ports hop → IsRelayed6 relay q six hop }
{}

/// The same with a packet from IPv4.
pub fn the_relay_sends_what_it_does_not_lose()
    ensures { (relay : Relay) (p : Packet4) (octets : List ℕ) (ports : Ports) (hop : Hop)
        → ArePortsOf4 p.content ports → Becomes4 relay p octets ports hop → IsRelayed4 relay p octets hop }
{}

/// What the hop of an edge does with a packet of its LAN that its machine lets out: it is sent as the laws of crossings say, and then
/// it leaves, or is dropped with an answer.
pub fn an_edge_sends_what_its_machine_lets_out()
    ensures { (node : Node) (from : Addr4) (port : ℕ) (src6 dst6 : Addr6) (freed : List Parcel)
        (p : Packet4) (octets : List ℕ) (hop : Hop)
        → FromLan node (LetOut from port src6 dst6 freed) octets p hop
        → IsSentOut node (LetOut from port src6 dst6 freed) p octets hop }
{}

/// The same with a packet from the access network that its machine lets in.
pub fn an_edge_receives_what_its_machine_lets_in()
    ensures { (node : Node) (to : Addr4) (port : ℕ) (from peer : Addr4) (freed : List Parcel)
        (q : Packet6) (six : List ℕ) (hop : Hop)
        → FromAccess node (LetIn to port from peer freed) six q hop
        → IsTakenIn node (LetIn to port from peer freed) q six hop }
{}

/// Each packet that the hop of an edge sends over the access network, for a packet of its LAN, is the translation by its machine's
/// answer of a packet of the hop, or a piece of it. Answers to packets that are dropped go to the LAN.
pub fn what_an_edge_sends_out_is_of_its_hop()
    ensures { (params : EdgeParams) (id : ℕ) (answer : Answer) (octets six : List ℕ) (hop : Hop) (k : ℕ)
        → IsEdgeHop (record { params = params; id = id }) Lan answer octets hop
        → slice_get hop.outs k ≡ Some (OverAccess six)
        → (one : List ℕ) × IsOfHop (IsLaterAt Lan) octets (freed_of answer) one × EdgeEmits params.mtus answer one six }
{}

/// Each packet that it sends to its LAN, for a packet from the access network, is the translation by its machine's answer of a packet
/// of the hop. Answers to packets that are dropped go to the access network.
pub fn what_an_edge_delivers_is_of_its_hop()
    ensures { (params : EdgeParams) (id : ℕ) (answer : Answer) (octets four : List ℕ) (hop : Hop) (k : ℕ)
        → IsEdgeHop (record { params = params; id = id }) Access answer octets hop
        → slice_get hop.outs k ≡ Some (OverLan four)
        → (one : List ℕ) × IsOfHop (IsLaterAt Access) octets (freed_of answer) one
        × EdgeDelivers (record { mtus = params.mtus; id = id }) answer one four }
{}

/// Each packet that the hop of the relay sends over the access network, for a packet from IPv4, is the translation of a packet of the
/// hop by the addresses of its rules, or a piece of it.
pub fn what_the_relay_sends_out_is_of_its_hop()
    ensures { (relay : Relay) (told : Option FragAnswer) (octets six : List ℕ) (hop : Hop) (k : ℕ)
        → IsTold false octets told
        → IsRelayHop relay false octets told hop
        → slice_get hop.outs k ≡ Some (OverAccess six)
        → (one : List ℕ) × IsOfHop IsLaterFragment4 octets (freed_with told) one × RelayEmits relay one six }
{}

/// Each packet that it sends over IPv4, for a packet from the access network, is the translation of a packet of the hop by the
/// addresses of its rules.
pub fn what_the_relay_delivers_is_of_its_hop()
    ensures { (relay : Relay) (told : Option FragAnswer) (octets four : List ℕ) (hop : Hop) (k : ℕ) (out : Out)
        → IsTold true octets told
        → IsRelayHop relay true octets told hop
        → slice_get hop.outs k ≡ Some out
        → IsOnIpv4 four out
        → (one : List ℕ) × IsOfHop IsLaterFragment6 octets (freed_with told) one × RelayDelivers relay one four }
{}

/// The answer to a packet of the LAN is one for the packet's destination, and for that of each fragment of its key, which it may free.
pub fn an_answer_out_is_for_its_key()
    ensures own { (step : Step) (p : Packet4) (octets : List ℕ) (answer : Answer)
        → answer_to step (outward p (flow_of4 p.content) octets) ≡ answer → AnsweredOut step p.head.dst answer }
    ensures freed { (step : Step) (first p : Packet4) (answer : Answer)
        → key_of4 0 p.head ≡ key_of4 0 first.head → AnsweredOut step first.head.dst answer → AnsweredOut step p.head.dst answer }
{}

/// The answer to a packet from the access network is one for its source and its flow's remote address, and for those of each fragment
/// of its key, which it may free.
pub fn an_answer_in_is_for_its_key()
    ensures own { (step : Step) (q : Packet6) (octets : List ℕ) (answer : Answer)
        → answer_to step (inward q (flow_of6 q.content) octets) ≡ answer
        → AnsweredIn step q.head.src (near_addr6 q q.content) answer }
    ensures freed { (step : Step) (first q : Packet6) (one other : List ℕ) (answer : Answer)
        → IsPacket6 false first one
        → IsPacket6 false q other
        → IsFragment6 first.head
        → IsFragment6 q.head
        → key_of6 1 q.head ≡ key_of6 1 first.head
        → AnsweredIn step first.head.src (near_addr6 first first.content) answer
        → AnsweredIn step q.head.src (near_addr6 q q.content) answer }
{}

/// Numbers of an answer fit their fields where those of the rules, of the ask and of the state do; and then those of the next state do.
pub fn numbers_stay_in_their_fields()
    ensures answer { (prefix : Prefix6) (s : NatState) (m : Moment) (ask : Ask)
        → FitBook m.seen.rules m.seen.dmr → FitsState s → FitsAsk ask → FitsAnswer (nat prefix s m ask).answer }
    ensures state { (prefix : Prefix6) (s : NatState) (m : Moment) (ask : Ask)
        → FitBook m.seen.rules m.seen.dmr → FitsState s → FitsAsk ask → FitsState (nat prefix s m ask).after }
    ensures history { (start : EdgeStart) (books : List Generation) (entries : List Entry)
        → FitsStart start books
        → All (λ (e : Entry). FitsAsk e.ask) entries
        → IsGood nat start books entries
        → All (λ (e : Entry). FitsAnswer e.answer) entries }
    ensures reached { (start : EdgeStart) (books : List Generation) (entries : List Entry)
        → FitsStart start books → All (λ (e : Entry). FitsAsk e.ask) entries → FitsState (replay nat start books entries) }
{}

/// Numbers of an ask about a packet of octets fit their fields, on each way on which an edge takes one.
pub fn numbers_of_an_ask_fit()
    ensures { (way : Way) (octets : List ℕ) (ask : Ask) → AreOctets octets → IsAsk way octets ask → FitsAsk ask }
{}

/// What both hops of a packet send, as their contracts say it, is a crossing: one step of the edge's machine, or two from edge to edge.
pub fn what_two_hops_send_is_a_crossing()
    ensures to_relay { (setting : Setting) (edge : EdgeAnswer) (relay : Relay) (octets six four : List ℕ)
        → AreOctets octets
        → EdgeLetsOut setting edge octets
        → EdgeEmits setting.mtus edge.answer octets six
        → IsRelayOf setting relay
        → ((q : Packet6) → IsPacket6 true q six → IsNumbered setting q relay.id)
        → RelayDelivers relay six four
        → HasCrossed setting (edge.answer ∷ []) octets four }
    ensures from_relay { (setting : Setting) (relay : Relay) (edge : EdgeAnswer) (id : ℕ) (octets six four : List ℕ)
        → AreOctets octets
        → IsRelayOf setting relay
        → FitBook relay.rules relay.dmr
        → RelayEmits relay octets six
        → EdgeLetsIn setting edge id six
        → EdgeDelivers (record { mtus = setting.mtus; id = id }) edge.answer six four
        → HasCrossed setting (edge.answer ∷ []) octets four }
    ensures between_edges { (setting : Setting) (one other : EdgeAnswer) (id : ℕ) (octets six four : List ℕ)
        → AreOctets octets
        → EdgeLetsOut setting one octets
        → EdgeEmits setting.mtus one.answer octets six
        → EdgeLetsIn setting other id six
        → EdgeDelivers (record { mtus = setting.mtus; id = id }) other.answer six four
        → HasCrossed setting (one.answer ∷ other.answer ∷ []) octets four }
{}
