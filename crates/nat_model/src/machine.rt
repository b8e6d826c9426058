ghost use Rattle.std.specs.Prelude.{◌≡◌, ◌<◌, ◌≤◌, ◌-◌, max, ◌+◌, ◌^◌, [], IfOk, OnOk, OnErr};
ghost use Rattle.rule_book.specs.Holder.{holder_of};
ghost use Rattle.nat_model.specs.Machine.{nat, timed, held_by, renewed};
ghost use Rattle.nat_model.specs.State.{Generation, generation_in, state_at};
ghost use Rattle.nat_model.specs.Binding.{is_unexpired};
ghost use Rattle.std.specs.List.{filter};
ghost use Rattle.nat_model.specs.Sound.{AreSound, IsSound};
ghost use Rattle.nat_model.specs.Waiting.{FreesAtMost};

use crate::fragment::{arrives, fragment_of};
use crate::stay::{staying, unexpired};
use crate::steps::{Standing, refused};
use crate::{Answer, Ask, Binding};
use frag_table::FragTable;
use octets::{Cause, NoMemory, Parcels, Prefix6};
use rule_book::{Book, RuleView};
use std::alloc::Global;
use std::marker::Model;

/// The NAPT44 of the edge with one prefix, over plain lists: the rules that it goes by, the greatest time that it saw,
/// its bindings and its notes on fragments. It counts its steps, and a step's place is the number of steps before it.
#[derive(Drop)]
pub struct Machine {
    prefix: Prefix6,
    book: Book,
    clock: u64,
    bindings: Vec<Binding>,
    notes: FragTable,
    steps: u64,
    alloc: Global,
}

impl Model for Machine {
    ghost use Rattle.nat_model.specs.State.{NatMachine};

    ghost Value = { NatMachine };

    ghost use Rattle.nat_model.specs.Inside.{machine_in, IsMachine};

    ghost view = { machine_in };

    ghost invariant = { IsMachine };
}

impl Machine {
    /// The machine of the edge with this prefix under the view's rules, at time 0. `kept` are the bindings that it
    /// has from the start: the edge may claim their ports, and those of one protocol have different ports and
    /// different host ends.
    pub fn start<V: RuleView>(
        alloc: Global,
        prefix: Prefix6,
        view: &V,
        kept: &[Binding],
    ) -> Result<Machine, NoMemory>
        requires sound { AreSound (holder_of (V.rules view.now) prefix) kept.now }
        ensures start { IfOk result (λ made. made ≡ record {
          prefix = prefix;
          state = record {
            book = record { rules = V.rules view.now; dmr = V.default_rule view.now; number = V.number view.now };
            clock = 0;
            bindings = kept.now;
            notes = [];
          };
          steps = 0;
        }) }
        ensures sound { IfOk result (λ made. IsSound made.prefix made.state) }
    {
        Ok(Machine {
            prefix,
            book: Book::of_view(alloc, view)?,
            clock: 0,
            bindings: Vec::from_slice(alloc, kept)?,
            notes: FragTable::new(alloc),
            steps: 0,
            alloc,
        })
    }

    /// A copy of the parcels that a step for this ask would free, if it frees any. Nothing changes.
    pub fn waiting(&self, now: u64, ask: &Ask) -> Result<Parcels, NoMemory>
        ensures { IfOk result (λ parcels. (seen : Generation) → FreesAtMost parcels (nat self.now.prefix self.now.state (record {
          seen = seen;
          now = now;
          place = self.now.steps;
        }) ask.now).answer) }
    {
        match fragment_of(ask) {
            Some(fragment) => self.notes.waiting(self.clock.max(now), &fragment),
            None => Ok(Parcels::new(self.alloc)),
        }
    }

    /// The step under the view's rules, which are newer than its own.
    fn step_under_new_rules<V: RuleView>(
        &mut self,
        now: u64,
        view: &V,
        ask: &Ask,
    ) -> Result<Answer, NoMemory>
        requires steps { self.old.steps < 2 ^ 64 - 1 }
        requires now { now < 2 ^ 63 }
        requires newer { self.old.state.book.number < V.number view.now }
        ensures answer { IfOk result (λ answer. answer
            ≡ (timed self.old.prefix (renewed self.old.prefix (record {
              rules = V.rules view.now;
              dmr = V.default_rule view.now;
              number = V.number view.now;
            }) self.old.state) now self.old.steps ask.now).answer) }
        ensures after { OnOk result (self.new.state
            ≡ (timed self.old.prefix (renewed self.old.prefix (record {
              rules = V.rules view.now;
              dmr = V.default_rule view.now;
              number = V.number view.now;
            }) self.old.state) now self.old.steps ask.now).after) }
        ensures prefix { OnOk result (self.new.prefix ≡ self.old.prefix) }
        ensures steps { OnOk result (self.new.steps ≡ self.old.steps + 1) }
        ensures err { OnErr result (self.new ≡ self.old) }
    {
        let book = Book::of_view(self.alloc, view)?;
        let (old, new) = (self.book.edge_of(self.prefix), book.edge_of(self.prefix));
        let bindings = staying(self.alloc, old, new, &self.bindings)?;
        let clock = later(self.clock, now);
        let known = Known {
            prefix: self.prefix,
            book: &book,
            clock,
            place: self.steps,
        };
        let Moved { bindings, answer } = known.moved(self.alloc, &bindings, &mut self.notes, ask)?;
        self.book = book;
        self.clock = clock;
        self.bindings = bindings;
        self.steps += 1;
        Ok(answer)
    }

    /// The step under its own rules.
    fn step_under_its_rules(&mut self, now: u64, ask: &Ask) -> Result<Answer, NoMemory>
        requires steps { self.old.steps < 2 ^ 64 - 1 }
        requires now { now < 2 ^ 63 }
        ensures answer { IfOk result (λ answer. answer ≡ (timed self.old.prefix self.old.state now self.old.steps ask.now).answer) }
        ensures after { OnOk result (self.new.state ≡ (timed self.old.prefix self.old.state now self.old.steps ask.now).after) }
        ensures prefix { OnOk result (self.new.prefix ≡ self.old.prefix) }
        ensures steps { OnOk result (self.new.steps ≡ self.old.steps + 1) }
        ensures err { OnErr result (self.new ≡ self.old) }
    {
        let clock = later(self.clock, now);
        let known = Known {
            prefix: self.prefix,
            book: &self.book,
            clock,
            place: self.steps,
        };
        let Moved { bindings, answer } = known.moved(
            self.alloc,
            &self.bindings,
            &mut self.notes,
            ask,
        )?;
        self.clock = clock;
        self.bindings = bindings;
        self.steps += 1;
        Ok(answer)
    }

    /// Asks the machine at a time in microseconds, under the rules that are seen: they are used where their generation
    /// is greater than that of its own. The answer and what the machine then is are those of the seven steps: the
    /// rules; the time; a holder, else `Refused` with `NoBasicRule`; the destination, else `WrongDestination`; the
    /// fragment, which may be `Held`, or refused with `FragmentsFull`; the remote addresses, else `Spoofed` or
    /// `NotDefault`; the binding, else `NoBinding` or `NoPort`. Want of memory leaves the machine as it was.
    #[tactic(auto, unfolding(crate::specs::Machine::nat, crate::specs::Machine::renewed))]
    pub fn step<V: RuleView>(&mut self, now: u64, view: &V, ask: &Ask) -> Result<Answer, NoMemory>
        requires steps { self.old.steps < 2 ^ 64 - 1 }
        requires now { now < 2 ^ 63 }
        ensures answer { IfOk result (λ answer. answer ≡ (nat self.old.prefix self.old.state (record {
          seen = record { rules = V.rules view.now; dmr = V.default_rule view.now; number = V.number view.now };
          now = now;
          place = self.old.steps;
        }) ask.now).answer) }
        ensures after { OnOk result (self.new.state ≡ (nat self.old.prefix self.old.state (record {
          seen = record { rules = V.rules view.now; dmr = V.default_rule view.now; number = V.number view.now };
          now = now;
          place = self.old.steps;
        }) ask.now).after) }
        ensures prefix { OnOk result (self.new.prefix ≡ self.old.prefix) }
        ensures steps { OnOk result (self.new.steps ≡ self.old.steps + 1) }
        ensures sound { IsSound self.new.prefix self.new.state }
        ensures err { OnErr result (self.new ≡ self.old) }
    {
        if view.generation() > self.book.generation() {
            self.step_under_new_rules(now, view, ask)
        } else {
            self.step_under_its_rules(now, ask)
        }
    }
}

/// What a step knows once the rules and the time are settled, with the step's place.
#[derive(Drop)]
struct Known<'a> {
    prefix: Prefix6,
    book: &'a Book,
    clock: u64,
    place: u64,
}

/// The bindings after a step, and its answer.
#[derive(Drop)]
struct Moved {
    bindings: Vec<Binding>,
    answer: Answer,
}

impl Known<'_> {
    /// The step on the bindings that stayed when the rules were settled. After want of memory the notes are as they
    /// were.
    fn moved(
        &self,
        alloc: Global,
        staying: &[Binding],
        notes: &mut FragTable,
        ask: &Ask,
    ) -> Result<Moved, NoMemory>
        requires clock { self.now.clock < 2 ^ 63 }
        requires notes { notes.old.clock ≤ self.now.clock }
        ensures moved { IfOk result (λ made.
            held_by
            (state_at (generation_in self.now.book.now) self.now.clock
            (filter (is_unexpired self.now.clock) staying.now) notes.old.notes)
            self.now.place ask.now (holder_of (generation_in self.now.book.now).rules self.now.prefix)
            ≡ record {
              after = state_at (generation_in self.now.book.now) self.now.clock made.bindings.items notes.new.notes;
              answer = made.answer;
            }) }
        ensures clock { OnOk result (notes.new.clock ≤ self.now.clock) }
        ensures err { OnErr result (notes.new ≡ notes.old) }
    {
        let mut bindings = unexpired(alloc, self.clock, staying)?;
        bindings.reserve(1)?;
        let Some(edge) = self.book.edge_of(self.prefix) else {
            let answer = refused(Cause::NoBasicRule, Parcels::new(alloc));
            return Ok(Moved { bindings, answer });
        };
        if !arrives(&edge, ask) {
            let answer = refused(Cause::WrongDestination, Parcels::new(alloc));
            return Ok(Moved { bindings, answer });
        }
        let standing = Standing {
            edge,
            book: self.book,
            clock: self.clock,
            alloc,
        };
        let answer = standing.gathered(self.place, ask, &mut bindings, notes)?;
        Ok(Moved { bindings, answer })
    }
}

/// The later of two times: the clock never goes back.
fn later(first: u64, second: u64) -> u64
    ensures { result ≡ max first second }
{
    first.max(second)
}
