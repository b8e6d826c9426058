//! Bindings that are kept from the start, in words.

ghost use Rattle.std.specs.Prelude.{IsTrue};
ghost use Rattle.std.specs.List.{All, AllPairs};
ghost use Rattle.rule_book.specs.Book.{rules_of};
ghost use Rattle.rule_book.specs.Holder.{holder_in, holder_of};
ghost use Rattle.nat_model.specs.Binding.{is_claimable_by};
ghost use Rattle.nat_model.specs.Sound.{AreApart, AreSound};

use crate::asks::say_proto;
use map_rules::EdgeId;
use nat_model::{Binding, Bindings};
use octets::Prefix6;
use rows::{RowFault, Said, Words};
use rule_book::{Book, RuleView};
use std::alloc::Global;

/// The next words as a binding: the protocol, the host and its port, the outside port, the deadline, and whether it is
/// live and kept.
fn read_binding(words: &mut Words<'_>) -> Result<Binding, RowFault> {
    let proto = words.proto()?;
    let host = words.addr4()?;
    let host_port = words.sixteen()?;
    let port = words.sixteen()?;
    let deadline = words.number()?;
    let live = words.flag()?;
    let kept = words.flag()?;
    Ok(Binding {
        proto,
        host,
        host_port,
        port,
        deadline,
        live,
        kept,
    })
}

/// All words that are left as bindings.
pub(crate) fn read_bindings(alloc: Global, words: &mut Words<'_>) -> Result<Bindings, RowFault> {
    let mut bindings = Bindings::new(alloc);
    for _ in 0..u64::MAX {
        if words.is_done() {
            break;
        }
        bindings.push(read_binding(words)?)?;
    }
    Ok(bindings)
}

/// Says a binding as it is read.
fn say_binding(alloc: Global, binding: &Binding, said: &mut Said) -> Result<(), RowFault> {
    say_proto(binding.proto, said)?;
    said.addr4(alloc, binding.host)?;
    said.number(u64::from(binding.host_port))?;
    said.number(u64::from(binding.port))?;
    said.number(binding.deadline)?;
    said.flag(binding.live)?;
    said.flag(binding.kept)
}

/// `bindings BINDING..`: the list of these, made of their slice.
pub(crate) fn bindings_answer(
    alloc: Global,
    words: &mut Words<'_>,
    said: &mut Said,
) -> Result<(), RowFault> {
    let pushed = read_bindings(alloc, words)?;
    let made = Bindings::of(alloc, pushed.as_slice())?;
    said.number(made.as_slice().len() as u64)?;
    for binding in made.as_slice() {
        say_binding(alloc, binding, said)?;
    }
    Ok(())
}

/// Whether the two have different outside ports and different host ends, where their protocol is the same.
fn is_apart(binding: &Binding, other: &Binding) -> bool
    ensures { IsTrue result → AreApart binding.now other.now }
{
    let same_host = binding.host == other.host && binding.host_port == other.host_port;
    binding.proto != other.proto || (binding.port != other.port && !same_host)
}

/// Whether the binding is apart from each of the others.
fn is_apart_from_all(binding: &Binding, others: &[Binding]) -> bool
    ensures { IsTrue result → All (λ other. AreApart binding.now other) others.now }
{
    others.iter().all(|other| is_apart(binding, other))
}

/// Whether each two are apart.
fn are_apart(bindings: &[Binding]) -> bool
    ensures { IsTrue result → AllPairs AreApart bindings.now }
{
    let Some((first, others)) = bindings.split_first() else {
        return true;
    };
    is_apart_from_all(first, others) && are_apart(others)
}

/// Whether the edge may claim the port of each.
fn are_claimable(edge: &EdgeId, bindings: &[Binding]) -> bool
    ensures { IsTrue result → All (λ binding. IsTrue (is_claimable_by (holder_in edge.now) binding.port)) bindings.now }
{
    bindings
        .iter()
        .all(|binding| edge.ports.claimable(binding.port))
}

/// Whether the edge with this prefix may have these bindings from the start.
pub(crate) fn are_sound(book: &Book, prefix: Prefix6, bindings: &[Binding]) -> bool
    ensures { IsTrue result → AreSound (holder_of (rules_of book.now) prefix) bindings.now }
{
    let claimable = match book.edge_of(prefix) {
        Some(edge) => are_claimable(&edge, bindings),
        None => bindings.is_empty(),
    };
    claimable && are_apart(bindings)
}
