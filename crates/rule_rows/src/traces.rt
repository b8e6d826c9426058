//! `script.trace`: what the trace of one worker tells, word by word: `record` with its number and `hop`s, each with node, generation,
//! stripe and place; changes; and for each edge and stripe that has some the answers in its history.

use domain_core::{HopNote, Trace, TraceItem};
use frag_table::FragAnswer;
use nat_model::{Answer, Who};
use octets::Parcel;
use rows::{RowFault, Said};
use std::alloc::Global;

fn say_hop(hop: &HopNote, said: &mut Said) -> Result<(), RowFault> {
    said.word("hop")?;
    said.number(u64::from(hop.node))?;
    said.number(u64::from(hop.seen))?;
    match hop.stripe {
        Some(stripe) => said.number(u64::from(stripe))?,
        None => said.word("-")?,
    }
    match hop.place {
        Some(place) => said.number(place),
        None => said.word("-"),
    }
}

fn say_item(item: &TraceItem, said: &mut Said) -> Result<(), RowFault> {
    match item {
        TraceItem::Record(journey) => {
            said.word("record")?;
            said.number(u64::from(journey.rec))?;
            said.number(u64::from(journey.worker))?;
            for hop in journey.hops.as_slice() {
                say_hop(hop, said)?;
            }
            Ok(())
        }
        TraceItem::Live { number, worker } => {
            said.word("live")?;
            said.number(u64::from(*number))?;
            said.number(u64::from(*worker))
        }
        TraceItem::Still { number } => {
            said.word("still")?;
            said.number(u64::from(*number))
        }
    }
}

fn say_who(who: &Who, said: &mut Said) -> Result<(), RowFault> {
    said.number(u64::from(who.worker))?;
    said.number(u64::from(who.rec))?;
    said.number(who.hop)
}

fn say_freed(freed: &[Parcel], said: &mut Said) -> Result<(), RowFault> {
    for parcel in freed {
        said.word("freed")?;
        said.number(parcel.place)?;
        said.octets(parcel.bytes.as_slice())?;
    }
    Ok(())
}

fn say_answer(alloc: Global, answer: &Answer, said: &mut Said) -> Result<(), RowFault> {
    match answer {
        Answer::Out {
            from,
            port,
            freed,
            ..
        } => {
            said.word("out")?;
            said.addr4(alloc, *from)?;
            said.number(u64::from(*port))?;
            say_freed(freed.as_slice(), said)
        }
        Answer::Turn { from, port, freed } => {
            said.word("turn")?;
            said.addr4(alloc, *from)?;
            said.number(u64::from(*port))?;
            say_freed(freed.as_slice(), said)
        }
        Answer::In {
            to,
            port,
            freed,
            ..
        } => {
            said.word("in")?;
            said.addr4(alloc, *to)?;
            said.number(u64::from(*port))?;
            say_freed(freed.as_slice(), said)
        }
        Answer::Kept { port, .. } => {
            said.word("kept")?;
            said.number(u64::from(*port))
        }
        Answer::Held => said.word("held"),
        Answer::Refused { cause, freed } => {
            said.word("drop")?;
            said.shown(cause)?;
            say_freed(freed.as_slice(), said)
        }
    }
}

fn say_told(answer: &FragAnswer, said: &mut Said) -> Result<(), RowFault> {
    match answer {
        FragAnswer::Noted => said.word("noted"),
        FragAnswer::Known(ports) => {
            said.word("known")?;
            said.number(u64::from(ports.src))?;
            said.number(u64::from(ports.dst))
        }
        FragAnswer::Held => said.word("held"),
        FragAnswer::Released(freed) => say_freed(freed.as_slice(), said),
        FragAnswer::Full => said.word("full"),
    }
}

/// Says all that a trace tells.
pub fn say_trace(alloc: Global, trace: &Trace, said: &mut Said) -> Result<(), RowFault> {
    said.number(u64::from(trace.workers))?;
    for item in trace.items.as_slice() {
        say_item(item, said)?;
    }
    for edge in trace.edges.as_slice() {
        said.word("edge")?;
        for note in edge.notes.as_slice() {
            say_who(&note.mark.who, said)?;
            said.number(u64::from(note.mark.seen))?;
            said.number(u64::from(note.mark.used))?;
            say_answer(alloc, &note.answer, said)?;
        }
    }
    for stripe in trace.stripes.as_slice() {
        said.word("stripe")?;
        for note in stripe.notes.as_slice() {
            say_who(&note.who, said)?;
            say_told(&note.answer, said)?;
        }
    }
    Ok(())
}
