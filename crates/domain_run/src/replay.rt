//! A script, taken through the domain by one worker.
ghost use Rattle.std.specs.Prelude.{◌≡◌, ◌+◌, ◌<◌, ◌^◌, ◌∷◌, [], length, IfOk, OnOk, IsTrue};
ghost use Rattle.mapt_setup.specs.Fit.{is_side_of};
ghost use Rattle.mapt_setup.specs.Script.{BelongsTo};
ghost use Rattle.mapt_setup.specs.Valid.{IsValidSetup};
ghost use Rattle.mapt_setup.specs.declared.script.ScriptItem.TheVariants.{Rec, Move};
ghost use Rattle.journeys.specs.OneThread.{IsOneThread};
ghost use Rattle.journeys.specs.Came.{AreKept};
ghost use Rattle.domain_run.specs.Machines.{AreMachines};
ghost use Rattle.domain_run.specs.Items.{AreTakeable, IsItemTaken};

use crate::journey::journey_of;
use crate::machines::Machines;
use crate::packet::WORKER;
use crate::told::{edge_histories_of, stripe_histories_of};
use domain_core::{Trace, TraceItem, TraceItems};
use journeys::{MadeHops, Taking};
use mapt_setup::{Script, ScriptItem, Setup, Side};
use octets::{List, NoMemory};
use std::alloc::Global;

/// One more. A script has fewer items than numbers.
fn next(count: u32) -> Result<u32, NoMemory>
    ensures { IfOk result (λ next. next ≡ count + 1) }
{
    count.checked_add(1).ok_or(NoMemory)
}

/// A replay between two items of its script: the machines, what a trace tells so far, the hops of each record, and how many records and
/// changes there were.
#[derive(Drop)]
struct Replay {
    machines: Machines,
    items: Vec<TraceItem>,
    kept: Vec<MadeHops>,
    records: u32,
    changes: u32,
}

/// What a replay comes to: its trace, and the hops of each record in their order, with what each of them sent and dropped.
#[derive(Drop)]
pub struct Replayed {
    pub trace: Trace,
    pub kept: List<MadeHops>,
}

impl Replay {
    /// Takes a record of this side.
    fn take_record(
        &mut self,
        alloc: Global,
        setup: &Setup,
        side: Side,
        time: u64,
        octets: &[u8],
    ) -> Result<(), NoMemory>
        requires valid { IsValidSetup setup.now }
        requires side { IsTrue (is_side_of setup.now side) }
        requires time { time < 2 ^ 63 }
        requires machines { AreMachines setup.now self.old.changes self.old.machines }
        ensures { OnOk result (IsItemTaken setup.now (Rec side time octets.now) self.old self.new) }
    {
        let rec = self.records;
        let taking = Taking {
            rec,
            time,
            seen: self.changes,
        };
        let records = next(rec)?;
        let hops = self
            .machines
            .take_record(alloc, setup, &taking, side, octets)?;
        let journey = journey_of(alloc, rec, hops.as_slice())?;
        self.items.push(TraceItem::Record(journey))?;
        self.kept.push(hops)?;
        self.records = records;
        Ok(())
    }

    /// Makes the next change of the rules.
    fn take_change(
        &mut self,
        alloc: Global,
        setup: &Setup,
        number: u32,
        live: bool,
    ) -> Result<(), NoMemory>
        requires valid { IsValidSetup setup.now }
        requires within { self.old.changes < length setup.now.changes }
        requires machines { AreMachines setup.now self.old.changes self.old.machines }
        ensures { OnOk result (IsItemTaken setup.now (Move number live) self.old self.new) }
    {
        let changes = next(self.changes)?;
        self.machines.change(alloc, setup, self.changes)?;
        self.changes = changes;
        let item = if live {
            TraceItem::Live {
                number,
                worker: WORKER,
            }
        } else {
            TraceItem::Still { number }
        };
        self.items.push(item)?;
        Ok(())
    }

    /// Takes one item.
    fn take(&mut self, alloc: Global, setup: &Setup, item: &ScriptItem) -> Result<(), NoMemory>
        requires valid { IsValidSetup setup.now }
        requires takeable { AreTakeable setup.now self.old.changes (item.now ∷ []) }
        requires machines { AreMachines setup.now self.old.changes self.old.machines }
        ensures { OnOk result (IsItemTaken setup.now item.now self.old self.new) }
    {
        match item {
            ScriptItem::Rec { side, time, bytes } => {
                self.take_record(alloc, setup, *side, *time, bytes.as_slice())
            }
            ScriptItem::Move { number, live } => self.take_change(alloc, setup, *number, *live),
        }
    }
}

/// The trace of one worker that takes a script of this setup: it takes the items in their order and makes one hop after the other,
/// each in the generation of the changes before its record. The hops are kept with what they sent: they are those of the trace, as they
/// are derived from the answers in it.
pub fn replay_kept(alloc: Global, setup: &Setup, script: &Script) -> Result<Replayed, NoMemory>
    requires valid { IsValidSetup setup.now }
    requires belongs { BelongsTo setup.now script.now }
    ensures trace { IfOk result (λ replayed. IsOneThread (record { setup = setup.now; script = script.now; trace = replayed.trace })) }
    ensures kept { IfOk result (λ replayed. AreKept (record { setup = setup.now; script = script.now; trace = replayed.trace }) replayed.kept) }
{
    let mut replay = Replay {
        machines: Machines::start(alloc, setup)?,
        items: Vec::new(alloc),
        kept: Vec::new(alloc),
        records: 0,
        changes: 0,
    };
    for item in script.as_slice() {
        replay.take(alloc, setup, item)?;
    }
    let edges = edge_histories_of(alloc, &replay.machines.edges)?;
    let stripes = stripe_histories_of(alloc, &replay.machines.stripes)?;
    let trace = Trace {
        workers: 1,
        items: TraceItems::from_vec(replay.items),
        edges,
        stripes,
    };
    Ok(Replayed {
        trace,
        kept: List::from_vec(replay.kept),
    })
}

/// The trace alone.
pub fn replay_one(alloc: Global, setup: &Setup, script: &Script) -> Result<Trace, NoMemory>
    requires valid { IsValidSetup setup.now }
    requires belongs { BelongsTo setup.now script.now }
    ensures { IfOk result (λ trace. IsOneThread (record { setup = setup.now; script = script.now; trace = trace })) }
{
    let replayed = replay_kept(alloc, setup, script)?;
    Ok(replayed.trace)
}
