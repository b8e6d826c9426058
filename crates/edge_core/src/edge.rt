ghost use Rattle.std.specs.Prelude.{◌≡◌, ◌<◌, ◌^◌, max, nat_lt, length, [], ◌∷◌, ◌++◌, if◌then◌else◌, IfOk, OnOk, OnErr};
ghost use Rattle.rule_book.specs.Holder.{holder_of};
ghost use Rattle.nat_model.specs.Machine.{nat};
ghost use Rattle.nat_model.specs.Sound.{AreSound};
ghost use Rattle.edge_core.specs.Shown.{KeepsEdge};

use crate::newer::{keep, newer};
use crate::noted::noted;
use nat_model::{Answer, Ask, Binding, Bindings, Entry, Machine, Mark, Who};
use octets::{NoMemory, Prefix6};
use rule_book::{Book, RuleView};
use std::alloc::Global;
use std::marker::Model;

/// The NAPT44 of one edge with its history. A contract sees where it began, the rules of each generation that it used, its
/// state and its history. The history is good over these: each answer in it is the machine's after the entries before it.
/// Replaying it gives the state.
#[derive(Drop)]
pub struct EdgeState {
    prefix: Prefix6,
    first: Book,
    kept: Bindings,
    /// The rules of the later generations that were used, by rising generation.
    later: Vec<Book>,
    /// The greatest generation that was used.
    used: u32,
    machine: Machine,
    entries: Vec<Entry>,
    alloc: Global,
}

impl Model for EdgeState {
    ghost use Rattle.edge_core.specs.Shown.{EdgeShown};

    ghost Value = { EdgeShown };

    ghost use Rattle.edge_core.specs.Edge.{edge_in, IsEdge};

    ghost view = { edge_in };

    ghost invariant = { IsEdge };
}

impl EdgeState {
    /// The edge with this prefix under the view's rules, at time 0, with no history. `kept` are the bindings that it
    /// has from the start: the edge may claim their ports, and those of one protocol have different ports and
    /// different host ends.
    pub fn start<V: RuleView>(
        alloc: Global,
        prefix: Prefix6,
        view: &V,
        kept: &[Binding],
    ) -> Result<EdgeState, NoMemory>
        requires { AreSound (holder_of (V.rules view.now) prefix) kept.now }
        ensures start { IfOk result (λ edge. edge.start ≡ record {
          prefix = prefix;
          book = record { rules = V.rules view.now; dmr = V.default_rule view.now; number = V.number view.now };
          kept = kept.now;
        }) }
        ensures books { IfOk result (λ edge. edge.books
            ≡ record { rules = V.rules view.now; dmr = V.default_rule view.now; number = V.number view.now } ∷ []) }
        ensures history { IfOk result (λ edge. edge.history ≡ []) }
        ensures keeps { IfOk result KeepsEdge }
    {
        Ok(EdgeState {
            prefix,
            first: Book::of_view(alloc, view)?,
            kept: Bindings::of(alloc, kept)?,
            later: Vec::new(alloc),
            used: view.generation(),
            machine: Machine::start(alloc, prefix, view, kept)?,
            entries: Vec::new(alloc),
            alloc,
        })
    }

    /// Asks the edge at a time in microseconds, under the rules that are seen, as `Machine::step` does at the place
    /// that is the number of entries so far, and adds the entry of this step to the history. Rules of a newer
    /// generation are used from now on. Want of memory leaves state and history.
    pub fn step<V: RuleView>(
        &mut self,
        who: Who,
        now: u64,
        view: &V,
        ask: &Ask,
    ) -> Result<Answer, NoMemory>
        requires { now < 2 ^ 63 }
        ensures answer { IfOk result (λ answer. answer ≡ (nat self.old.start.prefix self.old.state (record {
          seen = record { rules = V.rules view.now; dmr = V.default_rule view.now; number = V.number view.now };
          now = now;
          place = length self.old.history;
        }) ask.now).answer) }
        ensures state { OnOk result (self.new.state ≡ (nat self.old.start.prefix self.old.state (record {
          seen = record { rules = V.rules view.now; dmr = V.default_rule view.now; number = V.number view.now };
          now = now;
          place = length self.old.history;
        }) ask.now).after) }
        ensures history { IfOk result (λ answer. self.new.history ≡ self.old.history ++ record {
          mark = record { who = who; seen = V.number view.now; used = max (V.number view.now) self.old.state.book.number };
          now = now;
          ask = ask.now;
          answer = answer;
        } ∷ []) }
        ensures start { self.new.start ≡ self.old.start }
        ensures books { OnOk result (self.new.books ≡ self.old.books ++ (if nat_lt self.old.state.book.number (V.number view.now)
            then record { rules = V.rules view.now; dmr = V.default_rule view.now; number = V.number view.now } ∷ [] else [])) }
        ensures keeps { KeepsEdge self.new }
        ensures err { OnErr result (self.new ≡ self.old) }
    {
        let freed = self.machine.waiting(now, ask)?;
        let asked = ask.copy(self.alloc)?;
        let newer = newer(self.alloc, self.used, view)?;
        self.later.reserve(1)?;
        self.entries.reserve(1)?;
        let seen = view.generation();
        let used = self.used.max(seen);
        let answer = self.machine.step(now, view, ask)?;
        keep(&mut self.later, newer);
        self.used = used;
        self.entries.push_reserved(Entry {
            mark: Mark { who, seen, used },
            now,
            ask: asked,
            answer: noted(self.alloc, &answer, freed),
        });
        Ok(answer)
    }

    /// The steps so far, in their order: a good history, whose replay is the state.
    pub fn history(&self) -> &[Entry]
        ensures history { result.now ≡ self.now.history }
        ensures keeps { KeepsEdge self.now }
    {
        &self.entries
    }
}
