ghost use Rattle.std.specs.Prelude.{◌≡◌, ℕ, ◌<◌, ◌^◌, [], IfOk, OnOk, OnErr};
ghost use Rattle.frag_table.specs.Frag.{frag, freed_by};
ghost use Rattle.frag_table.specs.Fragment.{frag_ask};

use crate::live::expire;
use crate::notes::Notes;
use crate::rows::{Arrival, take, waiting};
use crate::{FragAnswer, FragAsk, Fragment};
use octets::{NoMemory, Parcels};
use std::alloc::Global;
use std::marker::Model;

/// The notes on fragments of one edge, or of one stripe of the relay. A contract sees the greatest time that
/// was seen, and the list of notes.
#[derive(Drop)]
pub struct FragTable {
    clock: u64,
    notes: Notes,
    alloc: Global,
}

impl Model for FragTable {
    ghost use Rattle.std.specs.Prelude.{◌<◌, ◌^◌};
    ghost use Rattle.frag_table.specs.State.{FragState};

    ghost Value = { FragState };

    ghost view = { λ t. record { clock = t.clock; notes = t.notes } };

    ghost invariant = { λ t. t.clock < 2 ^ 63 };
}

impl FragTable {
    /// A table without notes, which has seen no time.
    pub fn new(alloc: Global) -> FragTable
        ensures clock { result.clock ≡ 0 }
        ensures notes { result.notes ≡ [] }
    {
        FragTable {
            clock: 0,
            notes: Notes::new(alloc),
            alloc,
        }
    }

    /// Takes a fragment, at a time in microseconds. The answer to a first fragment is `Noted`, or `Released` with
    /// the fragments that waited for it, and to a later one `Known`, or `Held` until its first one comes. `Full`
    /// comes exactly for a new key where there are 256 notes, and for a fragment to hold where 16 are held. A note
    /// goes 60 seconds after it was made, with what it holds. Want of memory leaves the table as it was.
    pub fn step(&mut self, now: u64, place: u64, ask: &FragAsk) -> Result<FragAnswer, NoMemory>
        requires { now < 2 ^ 63 }
        ensures answer { IfOk result (λ answer. answer ≡ (frag self.old now place ask.now).answer) }
        ensures after { OnOk result (self.new ≡ (frag self.old now place ask.now).after) }
        ensures err { OnErr result (self.new ≡ self.old) }
    {
        self.take(now, place, &ask.fragment())
    }

    /// The same step for a fragment whose octets stay where they lie: they are copied only where it has to wait.
    pub fn take(
        &mut self,
        now: u64,
        place: u64,
        fragment: &Fragment<'_>,
    ) -> Result<FragAnswer, NoMemory>
        requires { now < 2 ^ 63 }
        ensures answer { IfOk result
            (λ answer. answer ≡ (frag self.old now place (frag_ask fragment.now)).answer) }
        ensures after { OnOk result (self.new ≡ (frag self.old now place (frag_ask fragment.now)).after) }
        ensures err { OnErr result (self.new ≡ self.old) }
    {
        let clock = self.clock.max(now);
        let arrival = Arrival {
            clock,
            place,
            alloc: self.alloc,
        };
        let answer = take(&mut self.notes, arrival, fragment)?;
        self.clock = clock;
        expire(&mut self.notes, clock);
        Ok(answer)
    }

    /// A copy of the parcels that a step would free, and none where it would answer anything but `Released`. Nothing
    /// changes.
    pub fn waiting(&self, now: u64, fragment: &Fragment<'_>) -> Result<Parcels, NoMemory>
        ensures { IfOk result (λ parcels. (step : ℕ)
            → parcels ≡ freed_by (frag self.now now step (frag_ask fragment.now)).answer) }
    {
        match fragment {
            Fragment::First(key, _) => {
                waiting(self.alloc, &self.notes, self.clock.max(now), key)
            }
            Fragment::Later(_, _) => Ok(Parcels::new(self.alloc)),
        }
    }
}
