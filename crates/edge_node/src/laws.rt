//! What holds of the definitions of an edge's part of a hop. Each law is the contract of a function that does nothing.

ghost use Rattle.std.specs.Prelude.{ℕ, List};
ghost use Rattle.nat_model.specs.declared.answer.Answer.{Answer as AnyAnswer};
ghost use Rattle.packets.specs.OneOf.{IsOneAtMost, IsTakenOrDropped};
ghost use Rattle.edge_node.specs.declared.way.Way.{Way as AnyWay};
ghost use Rattle.edge_node.specs.Asked.{IsAsk, IsDroppedAt};
ghost use Rattle.edge_node.specs.Hop.{IsEdgeHop};
ghost use Rattle.edge_node.specs.declared.way.Node.{Node};

/// Law: something is asked about each packet, or it is dropped for a cause before anything is asked: one of both always, never
/// both, and in one way.
pub fn each_packet_asks_the_edge_or_is_dropped()
    ensures { (way : AnyWay) (octets : List ℕ) → IsTakenOrDropped (IsAsk way octets) (λ cause. IsDroppedAt way cause octets) }
{}

/// Law: an edge has one hop at most for a packet and an answer.
pub fn an_edge_has_one_hop()
    ensures { (node : Node) (way : AnyWay) (answer : AnyAnswer) (octets : List ℕ) → IsOneAtMost (IsEdgeHop node way answer octets) }
{}
