//! The walk of a record: its hops, first in first out, whoever makes a hop.
ghost use Rattle.std.specs.Prelude.{◌≡◌, ◌+◌, ◌++◌, [], OnOk, IfOk, IfSome};
ghost use Rattle.std.specs.Option.{option_to_list, option_map};
ghost use Rattle.mapt_setup.specs.Valid.{IsValidSetup};
ghost use Rattle.journeys.specs.Waiting.{onward, at_stand, octets_of, StandsIn};
ghost use Rattle.journeys.specs.Walk.{Step, IsJourney};
ghost use Rattle.journeys.specs.Level.{IsAnswered, Gains, AreStanding, sent_by_kept, sent_by_level};

use crate::made::{MadeHop, MadeHops, Taking};
use crate::route::next_stand;
use crate::stand::Stand;
use hops::Out;
use mapt_setup::Setup;
use octets::NoMemory;
use std::alloc::Global;

/// The most hops one behind the other: as many as there are ranks of packets.
const MOST_DEPTH: u32 = 7;

/// Whoever makes hops: who reads a packet where it stands, asks the node's machine about it, and sends what becomes of it.
pub trait MakesHops {
    ghost use Rattle.mapt_setup.specs.declared.setup.Setup.{Setup as SetupType};
    ghost use Rattle.journeys.specs.declared.made.Taking.{Taking as TakingType};

    /// It can make hops of this record.
    ghost IsReady: { SetupType → TakingType → Self → Type 0 };

    /// A hop of a record, and what it leaves of what was known before.
    ghost Makes: { SetupType → TakingType → Step → Self → Self → Type 0 };

    /// After a hop it can make another.
    ghost stays: { (setup : SetupType) (taking : TakingType) (step : Step) (before after : Self)
        → Makes setup taking step before after → IsReady setup taking after };

    /// Makes the hop of this number, of the octets that stand there. What it sends to nodes goes less far than they.
    fn make(
        &mut self,
        alloc: Global,
        setup: &Setup,
        taking: &Taking,
        hop: u64,
        stand: Stand,
        octets: &[u8],
    ) -> Result<MadeHop, NoMemory>
        requires valid { IsValidSetup setup.now }
        requires stands { StandsIn setup.now stand }
        requires ready { IsReady setup.now taking.now self.old }
        ensures { IfOk result (λ made. IsAnswered (Makes setup.now taking.now) setup.now taking.now hop
            (at_stand octets.now stand) made self.old self.new) };
}

/// What a record is walked with: where memory comes from, the setup, and what all hops of the record have in common.
#[derive(Clone, Copy)]
struct Round<'a> {
    alloc: Global,
    setup: &'a Setup,
    taking: &'a Taking,
    /// The number of the first hop of a level.
    from: u64,
}

/// The octets of a packet that a hop sends.
fn octets_of(out: &Out) -> &[u8]
    ensures { result.now ≡ octets_of out.now }
{
    match out {
        Out::Lan(octets) | Out::Access(octets) | Out::Core(octets) | Out::Turn(octets) => {
            octets.as_slice()
        }
    }
}

/// The number of a hop behind so many of its level, the first of which has this number.
fn number(from: u64, behind: usize) -> Result<u64, NoMemory>
    ensures { IfOk result (λ number. number ≡ from + behind) }
{
    from.checked_add(behind as u64).ok_or(NoMemory)
}

/// The hop of what goes on, behind these of its level.
fn make_next<M: MakesHops>(
    maker: &mut M,
    round: &Round<'_>,
    here: Stand,
    out: &Out,
    level: &mut Vec<MadeHop>,
) -> Result<(), NoMemory>
    requires valid { IsValidSetup round.now.setup.now }
    requires stands { StandsIn round.now.setup.now here }
    requires ready { M.IsReady round.now.setup.now round.now.taking.now maker.old }
    ensures { OnOk result (Gains (M.Makes round.now.setup.now round.now.taking.now) round.now.setup.now round.now.taking.now round.now.from
        (option_to_list (onward round.now.setup.now here out.now)) level.old.items level.new.items maker.old maker.new) }
{
    let Some(stand) = next_stand(round.setup, here, out) else {
        return Ok(());
    };
    let hop = number(round.from, level.len())?;
    let made = maker.make(
        round.alloc,
        round.setup,
        round.taking,
        hop,
        stand,
        octets_of(out),
    )?;
    level.push(made)?;
    Ok(())
}

/// The hops of all that one hop sends on, behind these of its level.
fn make_sent<M: MakesHops>(
    maker: &mut M,
    round: &Round<'_>,
    sender: &MadeHop,
    level: &mut Vec<MadeHop>,
) -> Result<(), NoMemory>
    requires valid { IsValidSetup round.now.setup.now }
    requires stands { StandsIn round.now.setup.now sender.now.stand }
    requires ready { M.IsReady round.now.setup.now round.now.taking.now maker.old }
    ensures { OnOk result (Gains (M.Makes round.now.setup.now round.now.taking.now) round.now.setup.now round.now.taking.now round.now.from
        (sent_by_kept round.now.setup.now sender.now) level.old.items level.new.items maker.old maker.new) }
{
    for out in sender.hop.outs.as_slice() {
        make_next(maker, round, sender.stand, out, level)?;
    }
    Ok(())
}

/// The hops of all that these hops send on.
fn make_level<M: MakesHops>(
    maker: &mut M,
    round: &Round<'_>,
    senders: &[MadeHop],
) -> Result<Vec<MadeHop>, NoMemory>
    requires valid { IsValidSetup round.now.setup.now }
    requires standing { AreStanding round.now.setup.now senders.now }
    requires ready { M.IsReady round.now.setup.now round.now.taking.now maker.old }
    ensures { IfOk result (λ level. Gains (M.Makes round.now.setup.now round.now.taking.now) round.now.setup.now round.now.taking.now round.now.from
        (sent_by_level round.now.setup.now senders.now) [] level.items maker.old maker.new) }
{
    let mut level = Vec::new(round.alloc);
    for sender in senders {
        make_sent(maker, round, sender, &mut level)?;
    }
    Ok(level)
}

/// The first level: the hop of a record's own packet, where it stands at a node.
fn make_first<M: MakesHops>(
    maker: &mut M,
    round: &Round<'_>,
    first: Option<Stand>,
    octets: &[u8],
) -> Result<Vec<MadeHop>, NoMemory>
    requires valid { IsValidSetup round.now.setup.now }
    requires stands { IfSome first (StandsIn round.now.setup.now) }
    requires ready { M.IsReady round.now.setup.now round.now.taking.now maker.old }
    ensures { IfOk result (λ level. Gains (M.Makes round.now.setup.now round.now.taking.now) round.now.setup.now round.now.taking.now round.now.from
        (option_to_list (option_map (at_stand octets.now) first)) [] level.items maker.old maker.new) }
{
    let mut level = Vec::new(round.alloc);
    let Some(stand) = first else {
        return Ok(level);
    };
    let made = maker.make(
        round.alloc,
        round.setup,
        round.taking,
        round.from,
        stand,
        octets,
    )?;
    level.push(made)?;
    Ok(level)
}

/// These hops, behind those that are done.
fn put_behind(done: &mut Vec<MadeHop>, level: Vec<MadeHop>) -> Result<(), NoMemory>
    ensures { OnOk result (done.new.items ≡ done.old.items ++ level.items) }
{
    for made in level {
        done.push(made)?;
    }
    Ok(())
}

/// The hops of a record, first in first out: that of its own packet where it stands first, and those of all that its hops send on to
/// nodes. No hop is deeper than 7, since a packet that a hop sends on goes less far than the one that it took. A record that stands at
/// no node has none.
pub fn walk<M: MakesHops>(
    alloc: Global,
    setup: &Setup,
    taking: &Taking,
    maker: &mut M,
    first: Option<Stand>,
    octets: &[u8],
) -> Result<MadeHops, NoMemory>
    requires valid { IsValidSetup setup.now }
    requires stands { IfSome first (StandsIn setup.now) }
    requires ready { M.IsReady setup.now taking.now maker.old }
    ensures journey { IfOk result (IsJourney (M.Makes setup.now taking.now) setup.now taking.now
        (option_to_list (option_map (at_stand octets.now) first)) maker.old maker.new) }
    ensures ready { OnOk result (M.IsReady setup.now taking.now maker.new) }
{
    let mut done = Vec::new(alloc);
    let start = Round {
        alloc,
        setup,
        taking,
        from: 0,
    };
    let mut level = make_first(maker, &start, first, octets)?;
    for _ in 1..MOST_DEPTH {
        let from = number(done.len() as u64, level.len())?;
        let round = Round {
            alloc,
            setup,
            taking,
            from,
        };
        let next = make_level(maker, &round, &level)?;
        put_behind(&mut done, level)?;
        level = next;
    }
    put_behind(&mut done, level)?;
    Ok(MadeHops::from_vec(done))
}
