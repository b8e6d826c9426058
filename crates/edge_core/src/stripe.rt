ghost use Rattle.std.specs.Prelude.{◌≡◌, ◌<◌, ◌^◌, length, [], ◌∷◌, ◌++◌, IfOk, OnOk, OnErr};
ghost use Rattle.frag_table.specs.Frag.{frag, freed_by};
ghost use Rattle.edge_core.specs.Shown.{KeepsStripe};

use frag_table::{FragAnswer, FragAsk, FragTable};
use nat_model::{StripeEntry, Who};
use octets::{NoMemory, Parcels};
use std::alloc::Global;
use std::marker::Model;

/// A stripe of the relay's fragment notes, with its history. A contract sees both. The history is good: each answer in it is
/// the fragment machine's after the entries before it. Replaying it gives the notes.
#[derive(Drop)]
pub struct StripeState {
    table: FragTable,
    entries: Vec<StripeEntry>,
    alloc: Global,
}

impl Model for StripeState {
    ghost use Rattle.edge_core.specs.Shown.{StripeShown};

    ghost Value = { StripeShown };

    ghost use Rattle.edge_core.specs.Stripe.{stripe_in, IsStripe};

    ghost view = { stripe_in };

    ghost invariant = { IsStripe };
}

impl StripeState {
    /// A stripe without notes, whose history is empty.
    pub fn new(alloc: Global) -> StripeState
        ensures history { result.history ≡ [] }
        ensures keeps { KeepsStripe result }
    {
        StripeState {
            table: FragTable::new(alloc),
            entries: Vec::new(alloc),
            alloc,
        }
    }

    /// Takes a fragment, at a time in microseconds, as `FragTable::step` does at the place that is the number of
    /// entries so far, and adds the entry of this step to the history. Want of memory leaves notes and history.
    pub fn step(&mut self, who: Who, now: u64, ask: &FragAsk) -> Result<FragAnswer, NoMemory>
        requires { now < 2 ^ 63 }
        ensures answer { IfOk result (λ answer.
            answer ≡ (frag self.old.table now (length self.old.history) ask.now).answer) }
        ensures table { OnOk result
            (self.new.table ≡ (frag self.old.table now (length self.old.history) ask.now).after) }
        ensures history { IfOk result (λ answer. self.new.history
            ≡ self.old.history ++ record { who = who; now = now; ask = ask.now; answer = answer } ∷ []) }
        ensures keeps { KeepsStripe self.new }
        ensures err { OnErr result (self.new ≡ self.old) }
    {
        let freed = self.table.waiting(now, &ask.fragment())?;
        let asked = ask.copy(self.alloc)?;
        self.entries.reserve(1)?;
        let place = self.entries.len() as u64;
        let answer = self.table.step(now, place, ask)?;
        self.entries.push_reserved(StripeEntry {
            who,
            now,
            ask: asked,
            answer: noted(&answer, freed),
        });
        Ok(answer)
    }

    /// The steps so far, in their order: a good history, whose replay is the notes.
    pub fn history(&self) -> &[StripeEntry]
        ensures history { result.now ≡ self.now.history }
        ensures keeps { KeepsStripe self.now }
    {
        &self.entries
    }
}

/// The answer once more, with a copy of the parcels that it frees.
fn noted(answer: &FragAnswer, freed: Parcels) -> FragAnswer
    requires { freed ≡ freed_by answer.now }
    ensures { result ≡ answer.now }
{
    match answer {
        FragAnswer::Noted => FragAnswer::Noted,
        FragAnswer::Known(ports) => FragAnswer::Known(*ports),
        FragAnswer::Held => FragAnswer::Held,
        FragAnswer::Released(_) => FragAnswer::Released(freed),
        FragAnswer::Full => FragAnswer::Full,
    }
}
