//! Machines before the first hop, and after a change of the rules.
ghost use Rattle.std.specs.Prelude.{◌≡◌, ◌<◌, ◌+◌, ◌==◌, ◌^◌, length, map, IfOk, OnOk, OnErr};
ghost use Rattle.std.specs.List.{All, filter};
ghost use Rattle.rule_book.specs.Valid.{FitsRule, FitBook};
ghost use Rattle.relay_node.specs.Asked.{stripes};
ghost use Rattle.mapt_setup.specs.Valid.{IsValidSetup};
ghost use Rattle.mapt_setup.specs.declared.forward.ForwardLine.{ForwardLine as ForwardType};
ghost use Rattle.journeys.specs.Run.{no_histories};
ghost use Rattle.domain_run.specs.Machines.{histories_of, AreMachines};
ghost use Rattle.domain_run.specs.Start.{IsFirstEdgeAt, AreFirstEdges, IsFirstStripe};

use crate::machines::Machines;
use edge_core::{EdgeState, StripeState};
use map_rules::{Dmr, Rule};
use mapt_setup::{ForwardLine, Setup};
use nat_model::Bindings;
use octets::NoMemory;
use rule_book::{BookFault, RuleView};
use std::alloc::Global;

/// How many stripes the relay has.
const STRIPES: u32 = 16;

/// The prefixes of a rule are those of IPv4 and IPv6 addresses.
fn read_rule(rule: Rule)
    ensures { FitsRule rule }
{}

/// The prefix of a default mapping rule is that of IPv6 addresses.
fn read_default(dmr: Dmr)
    ensures { dmr.prefix.bits < 2 ^ 128 }
{}

/// Reads each rule once, so that its numbers are known to be in the ranges of their types.
fn read_rules<V: RuleView>(view: &V)
    ensures { FitBook (V.rules view.now) (V.default_rule view.now) }
{
    read_default(view.dmr());
    for i in 0..view.count() {
        if let Some(rule) = view.rule(i) {
            read_rule(rule);
        }
    }
}

/// The bindings of the forwards of one edge, in their order.
fn kept_of(alloc: Global, forwards: &[ForwardLine], number: u32) -> Result<Bindings, NoMemory>
    ensures { IfOk result (λ kept. kept
        ≡ map (λ (f : ForwardType). f.binding) (filter (λ (f : ForwardType). f.edge == number) forwards.now)) }
{
    let mut kept = Bindings::new(alloc);
    for forward in forwards {
        if forward.edge == number {
            kept.push(forward.binding)?;
        }
    }
    Ok(kept)
}

/// The edge of this number, with the bindings of its forwards.
fn first_edge(alloc: Global, setup: &Setup, number: u32) -> Result<EdgeState, NoMemory>
    requires valid { IsValidSetup setup.now }
    requires within { number < length setup.now.edges }
    ensures { IfOk result (IsFirstEdgeAt setup.now number) }
{
    let kept = kept_of(alloc, setup.forwards.as_slice(), number)?;
    let line = &setup.edges.as_slice()[number as usize];
    EdgeState::start(alloc, line.prefix, &setup.book, kept.as_slice())
}

/// Each edge of a setup, in their order.
fn first_edges(alloc: Global, setup: &Setup) -> Result<Vec<EdgeState>, NoMemory>
    requires { IsValidSetup setup.now }
    ensures { IfOk result (λ edges. AreFirstEdges setup.now edges.items) }
{
    let mut edges = Vec::new(alloc);
    for number in 0..setup.edges.as_slice().len() {
        edges.push(first_edge(alloc, setup, number as u32)?)?;
    }
    Ok(edges)
}

/// The relay's stripes, without notes.
fn first_stripes(alloc: Global) -> Result<Vec<StripeState>, NoMemory>
    ensures count { IfOk result (λ made. length made.items ≡ stripes) }
    ensures each { IfOk result (λ made. All IsFirstStripe made.items) }
{
    let mut made = Vec::new(alloc);
    for _ in 0..STRIPES {
        made.push(StripeState::new(alloc))?;
    }
    Ok(made)
}

/// Want of memory, where no rules refuse a change.
fn lack(fault: BookFault) -> NoMemory
    requires { fault ≡ BookFault.NoMemory }
{
    match fault {
        BookFault::NoMemory => NoMemory,
        _ => unreachable!("the rules accept the change"),
    }
}

impl Machines {
    /// The machines of a setup before the first hop: no history has an entry.
    pub fn start(alloc: Global, setup: &Setup) -> Result<Machines, NoMemory>
        requires { IsValidSetup setup.now }
        ensures machines { IfOk result (AreMachines setup.now 0) }
        ensures histories { IfOk result (λ machines. histories_of machines ≡ no_histories setup.now) }
    {
        read_rules(&setup.book);
        Ok(Machines {
            book: setup.book.copy(alloc)?,
            edges: first_edges(alloc, setup)?,
            stripes: first_stripes(alloc)?,
        })
    }

    /// Changes the rules by the setup's change of this number, from 0. The rules before it accept it, so there is no
    /// other error than want of memory, which leaves the machines. Histories stay as they are.
    pub fn change(&mut self, alloc: Global, setup: &Setup, changes: u32) -> Result<(), NoMemory>
        requires valid { IsValidSetup setup.now }
        requires within { changes < length setup.now.changes }
        requires machines { AreMachines setup.now changes self.old }
        ensures machines { OnOk result (AreMachines setup.now (changes + 1) self.new) }
        ensures histories { OnOk result (histories_of self.new ≡ histories_of self.old) }
        ensures err { OnErr result (self.new ≡ self.old) }
    {
        let line = &setup.changes.as_slice()[changes as usize];
        let book = match self.book.changed(alloc, &line.change) {
            Ok(book) => book,
            Err(fault) => return Err(lack(fault)),
        };
        read_rules(&book);
        self.book = book;
        Ok(())
    }
}
