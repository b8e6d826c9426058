//! The lists of what a hop sends and drops.

use crate::sent::say_out;
use hops::{Causes, Hop, Out, Outs};
use octets::Cause;
use rows::{RowFault, Said, Words};
use std::alloc::Global;

fn out(alloc: Global, words: &mut Words<'_>) -> Result<Out, RowFault> {
    match words.word()? {
        "lan" => Ok(Out::Lan(words.octets(alloc)?)),
        "access" => Ok(Out::Access(words.octets(alloc)?)),
        "core" => Ok(Out::Core(words.octets(alloc)?)),
        "turn" => Ok(Out::Turn(words.octets(alloc)?)),
        _ => Err(RowFault::NotARow),
    }
}

fn cause(words: &mut Words<'_>) -> Result<Cause, RowFault> {
    Cause::from_number(words.eight()?).ok_or(RowFault::NotARow)
}

fn hop_of(alloc: Global, words: &mut Words<'_>) -> Result<Hop, RowFault> {
    let mut outs = Outs::new(alloc);
    for _ in 0..words.eight()? {
        outs.push(out(alloc, words)?)?;
    }
    let mut drops = Causes::new(alloc);
    for _ in 0..words.eight()? {
        drops.push(cause(words)?)?;
    }
    Ok(Hop { outs, drops })
}

/// `hop COUNT PACKETS COUNT CAUSES`: so many packets that are sent, and so many causes by their numbers; what is put in is what is
/// found.
pub fn answer(alloc: Global, words: &mut Words<'_>, said: &mut Said) -> Result<(), RowFault> {
    let hop = hop_of(alloc, words)?;
    said.word("sent")?;
    for out in hop.outs.as_slice() {
        say_out(said, out)?;
    }
    said.word("dropped")?;
    for cause in hop.drops.as_slice() {
        said.shown(cause)?;
    }
    Ok(())
}
