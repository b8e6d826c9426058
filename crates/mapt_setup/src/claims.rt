//! The forwards of a configuration at the edges that they name.

ghost use Rattle.std.specs.Prelude.{◌≡◌, ◌<◌, ◌≤◌, length, IfSome, IfOk};
ghost use Rattle.std.specs.List.{position};
ghost use Rattle.rule_book.specs.Book.{rules_of};
ghost use Rattle.setup_tables.specs.Answer.{Gives, HasNone, each};
ghost use Rattle.mapt_setup.specs.Beside.{first_after};
ghost use Rattle.mapt_setup.specs.Claims.{edge_place, IsAtEdge, is_unclaimable, collides, is_taken, forward_fault, forwards_of};

use crate::forward::{ForwardLine, Forwards};
use rule_book::{Book, RuleView};
use setup_tables::{EdgeLine, ForwardText, SetupCause, SetupFault};
use std::alloc::Global;

/// The place of the edge with this name.
fn edge_place(edges: &[EdgeLine], name: &[u8]) -> Option<usize>
    ensures place { result ≡ edge_place name.now edges.now }
    ensures within { IfSome result (λ i. i < length edges.now) }
{
    edges.iter().position(|edge| edge.name.as_slice() == name)
}

/// The forwards of these texts at the edges that they name, or the first that names none.
fn placed(alloc: Global, edges: &[EdgeLine], texts: &[ForwardText]) -> Result<Forwards, SetupFault>
    requires edges { length edges.now ≤ 256 }
    requires texts { length texts.now ≤ 256 }
    ensures few { IfOk result (λ forwards. length forwards ≤ 256) }
    ensures exact { Gives (λ f. f) result (each SetupCause.ForwardEdge (IsAtEdge edges.now) (HasNone (IsAtEdge edges.now)) texts.now) }
{
    let mut forwards = Forwards::new(alloc);
    for (i, text) in texts.iter().enumerate() {
        let Some(place) = edge_place(edges, text.edge.as_slice()) else {
            return Err(SetupFault::Refused(SetupCause::ForwardEdge, i as u32));
        };
        forwards.push(ForwardLine {
            edge: place as u32,
            binding: text.binding,
        })?;
    }
    Ok(forwards)
}

/// Whether a forward's edge may not claim its port under these rules.
fn is_unclaimable(book: &Book, edges: &[EdgeLine], forward: &ForwardLine) -> bool
    ensures { result ≡ is_unclaimable (rules_of book.now) edges.now forward.now }
{
    let Some(edge) = edges.get(forward.edge as usize) else {
        return true;
    };
    match book.edge_of(edge.prefix) {
        Some(held) => !held.ports.claimable(forward.binding.port),
        None => true,
    }
}

/// The first forward whose edge may not claim its port under these rules.
fn first_unclaimable(book: &Book, edges: &[EdgeLine], forwards: &[ForwardLine]) -> Option<usize>
    ensures place { result ≡ position (is_unclaimable (rules_of book.now) edges.now) forwards.now }
    ensures within { IfSome result (λ i. i < length forwards.now) }
{
    forwards
        .iter()
        .position(|forward| is_unclaimable(book, edges, forward))
}

/// Whether two forwards are of one edge and one protocol, and have one outside port or one host's end.
fn collides(forward: &ForwardLine, other: &ForwardLine) -> bool
    ensures { result ≡ collides forward.now other.now }
{
    let (one, two) = (&other.binding, &forward.binding);
    other.edge == forward.edge
        && one.proto == two.proto
        && (one.port == two.port || (one.host == two.host && one.host_port == two.host_port))
}

/// Whether an earlier forward does with it.
fn is_taken(earlier: &[ForwardLine], forward: &ForwardLine) -> bool
    ensures { result ≡ is_taken earlier.now forward.now }
{
    earlier.iter().any(|other| collides(forward, other))
}

/// The first forward of which that is true.
fn first_taken(forwards: &[ForwardLine]) -> Option<usize>
    ensures place { result ≡ first_after is_taken forwards.now }
    ensures within { IfSome result (λ i. i < length forwards.now) }
{
    for i in 0..forwards.len() {
        if is_taken(&forwards[..i], &forwards[i]) {
            return Some(i);
        }
    }
    None
}

/// The first thing that is wrong with forwards at their edges under these rules.
fn forward_fault(book: &Book, edges: &[EdgeLine], forwards: &[ForwardLine]) -> Option<SetupFault>
    requires { length forwards.now ≤ 256 }
    ensures { result ≡ forward_fault (rules_of book.now) edges.now forwards.now }
{
    if let Some(i) = first_unclaimable(book, edges, forwards) {
        return Some(SetupFault::Refused(SetupCause::ForwardPort, i as u32));
    }
    let i = first_taken(forwards)?;
    Some(SetupFault::Refused(SetupCause::ForwardTwice, i as u32))
}

/// The forwards of these texts at their edges, or the first thing that is wrong with them under these rules.
pub(crate) fn forwards_of(
    alloc: Global,
    book: &Book,
    edges: &[EdgeLine],
    texts: &[ForwardText],
) -> Result<Forwards, SetupFault>
    requires edges { length edges.now ≤ 256 }
    requires texts { length texts.now ≤ 256 }
    ensures { Gives (λ forwards. forwards) result (forwards_of (rules_of book.now) edges.now texts.now) }
{
    let forwards = placed(alloc, edges, texts)?;
    if let Some(fault) = forward_fault(book, edges, forwards.as_slice()) {
        return Err(fault);
    }
    Ok(forwards)
}
