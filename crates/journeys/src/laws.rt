//! Laws: how far packets go. Each is the contract of a function that does nothing.

ghost use Rattle.std.specs.Prelude.{◌≡◌, ℕ, ◌≤◌, Bool, List, [], length, true, Option, if◌then◌else◌};
ghost use Rattle.frag_table.specs.declared.answer.FragAnswer.{FragAnswer as AnyFragAnswer};
ghost use Rattle.nat_model.specs.declared.answer.Answer.{Answer as AnyAnswer};
ghost use Rattle.nat_model.specs.Waiting.{freed_of};
ghost use Rattle.rule_book.specs.Book.{dmr_of};
ghost use Rattle.packets.specs.OneOf.{IsOneAtMost};
ghost use Rattle.hops.specs.declared.hop.Hop.{Hop as AnyHop};
ghost use Rattle.edge_node.specs.declared.way.Node.{Node as AnyNode};
ghost use Rattle.edge_node.specs.declared.way.Way.{Way as AnyWay};
ghost use Rattle.edge_node.specs.declared.way.Way.TheVariants.{Access as FromAccess};
ghost use Rattle.edge_node.specs.Hop.{IsEdgeHop};
ghost use Rattle.relay_node.specs.Relay.{Relay as AnyRelay};
ghost use Rattle.relay_node.specs.Hop.{IsRelayHop};
ghost use Rattle.mapt_setup.specs.declared.setup.Setup.{Setup as AnySetup};
ghost use Rattle.mapt_setup.specs.Valid.{IsValidSetup};
ghost use Rattle.mapt_setup.specs.declared.script.ScriptItem.{ScriptItem};
ghost use Rattle.domain_core.specs.declared.trace.Trace.{Trace as AnyTrace};
ghost use Rattle.journeys.specs.declared.stand.Stand.TheVariants.{Edge as AtEdge, Relay as AtRelay};
ghost use Rattle.journeys.specs.Waiting.{at_stand};
ghost use Rattle.journeys.specs.OneThread.{IsOneThread};
ghost use Rattle.journeys.specs.Run.{IsRun, made_in};
ghost use Rattle.journeys.specs.Walk.{Step as AnyStep};
ghost use Rattle.journeys.specs.Derived.{Told};
ghost use Rattle.journeys.specs.Came.{AreJourneys, AreKept};
ghost use Rattle.journeys.specs.Depth.{HasBooks, IsHopOf, FreeNoneToErrors, IsChain};
ghost use Rattle.journeys.specs.Rank.{is_fault4, is_fault6, freed_by_told, IsBook, SendsLess};

/// Law: what a hop of an edge sends to nodes has a smaller rank than the packet that it took, where its answer frees nothing to an
/// ICMP error from the access network. A machine's answer frees to a first fragment alone.
pub fn an_edge_sends_what_goes_less_far()
    ensures { (setup : AnySetup) (node : AnyNode) (number : ℕ) (way : AnyWay) (answer : AnyAnswer) (octets : List ℕ) (hop : AnyHop)
        → (way ≡ FromAccess → is_fault6 octets ≡ true → freed_of answer ≡ []) → IsEdgeHop node way answer octets hop
        → SendsLess setup (at_stand octets (AtEdge number way)) hop }
{}

/// Law: so has what a hop of the relay sends to nodes, under the rules of a book with the setup's default mapping rule.
pub fn the_relay_sends_what_goes_less_far()
    ensures { (setup : AnySetup) (relay : AnyRelay) (six : Bool) (octets : List ℕ) (told : Option AnyFragAnswer) (hop : AnyHop)
        → relay.dmr ≡ dmr_of setup.book → IsBook relay
        → ((if six then is_fault6 octets else is_fault4 octets) ≡ true → freed_by_told told ≡ [])
        → IsRelayHop relay six octets told hop → SendsLess setup (at_stand octets (AtRelay six)) hop }
{}

/// Law: what one worker does with a script is told by the one-thread trace: each packet that a hop took follows from the answers in the
/// trace, the journeys have all packets, and the histories are good.
pub fn what_one_worker_does_is_the_one_thread_trace()
    ensures { (setup : AnySetup) (script : List ScriptItem) (trace : AnyTrace) → IsRun setup script trace
        → IsOneThread (record { setup = setup; script = script; trace = trace }) }
{}

/// Law: what one worker keeps of each record, hop by hop, is what its trace says: by the packets that follow from the answers in it.
pub fn what_one_worker_keeps_is_what_its_trace_says()
    ensures { (setup : AnySetup) (script : List ScriptItem) (trace : AnyTrace) (run : IsRun setup script trace)
        → AreKept (record { setup = setup; script = script; trace = trace }) (made_in run.runs) }
{}

/// Law: in the journeys of any trace, what a hop sends to nodes has a smaller rank than the packet that it took, where no entry that a
/// hop names frees to an ICMP error.
pub fn no_hop_sends_further()
    ensures { (told : Told) (journeys : List (List AnyStep)) (rec hop : ℕ) (step : AnyStep)
        → IsValidSetup told.setup → HasBooks told.setup → AreJourneys told journeys → FreeNoneToErrors told.trace journeys
        → IsHopOf journeys rec hop step
        → SendsLess told.setup step.taken step.came }
{}

/// Law: so no chain of hops, each of which takes a packet that the one before sends on, has more than seven.
pub fn no_hop_is_deeper_than_seven()
    ensures { (told : Told) (journeys : List (List AnyStep)) (rec : ℕ) (chain : List AnyStep)
        → IsValidSetup told.setup → HasBooks told.setup → AreJourneys told journeys → FreeNoneToErrors told.trace journeys
        → IsChain told.setup journeys rec chain → length chain ≤ 7 }
{}

/// Law: one worker's trace frees nothing to an ICMP error.
pub fn nothing_is_freed_to_an_error_by_one_worker()
    ensures { (told : Told) (journeys : List (List AnyStep)) → IsOneThread told → AreJourneys told journeys
        → FreeNoneToErrors told.trace journeys }
{}

/// Law: a trace has at most one set of journeys, and so they are kept in one way.
pub fn the_journeys_of_a_trace_are_one()
    ensures journeys { (told : Told) → IsOneAtMost (AreJourneys told) }
    ensures kept { (told : Told) → IsOneAtMost (AreKept told) }
{}
