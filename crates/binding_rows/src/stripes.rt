//! One stripe of the relay with its history.

use crate::fragments::{read_fragment, say_fragment, say_told};
use edge_core::{StripeEntry, StripeState};
use nat_model::Who;
use rows::{RowFault, Said, Words};
use std::alloc::Global;

/// The stripe that consecutive rows ask.
#[derive(Drop)]
pub(crate) struct Stripes {
    stripe: Option<StripeState>,
}

/// The next words as who asks: the worker, the record and the hop.
pub(crate) fn read_who(words: &mut Words<'_>) -> Result<Who, RowFault> {
    let worker = words.thirty_two()?;
    let rec = words.thirty_two()?;
    let hop = words.number()?;
    Ok(Who { worker, rec, hop })
}

/// Says who asked as it is read.
pub(crate) fn say_who(who: Who, said: &mut Said) -> Result<(), RowFault> {
    said.number(u64::from(who.worker))?;
    said.number(u64::from(who.rec))?;
    said.number(who.hop)
}

/// Says an entry: who asked, the time, the fragment, and what it was told.
fn say_entry(alloc: Global, entry: &StripeEntry, said: &mut Said) -> Result<(), RowFault> {
    say_who(entry.who, said)?;
    said.number(entry.now)?;
    say_fragment(alloc, &entry.ask, said)?;
    say_told(&entry.answer, said)
}

impl Stripes {
    /// No stripe.
    pub(crate) fn new() -> Stripes {
        Stripes { stripe: None }
    }

    /// The rows of a stripe: `start`, `step`, `entries` and `entry`.
    pub(crate) fn answer(
        &mut self,
        alloc: Global,
        words: &mut Words<'_>,
        said: &mut Said,
    ) -> Result<(), RowFault> {
        match words.word()? {
            "start" => {
                self.stripe = Some(StripeState::new(alloc));
                said.word("started")
            }
            "step" => self.step(alloc, words, said),
            "entries" => self.entries(said),
            "entry" => self.entry(alloc, words, said),
            _ => Err(RowFault::NotARow),
        }
    }

    /// `step WHO TIME FRAGMENT`.
    fn step(
        &mut self,
        alloc: Global,
        words: &mut Words<'_>,
        said: &mut Said,
    ) -> Result<(), RowFault> {
        let who = read_who(words)?;
        let now = words.number()?;
        let ask = read_fragment(alloc, words)?;
        let Some(stripe) = &mut self.stripe else {
            return Err(RowFault::NotARow);
        };
        if now >= 1 << 63 {
            return said.word("unmet");
        }
        let answer = stripe.step(who, now, &ask)?;
        say_told(&answer, said)
    }

    /// `entries`: how many entries the history has.
    fn entries(&self, said: &mut Said) -> Result<(), RowFault> {
        let Some(stripe) = &self.stripe else {
            return Err(RowFault::NotARow);
        };
        said.number(stripe.history().len() as u64)
    }

    /// `entry PLACE`: the entry at this place.
    fn entry(&self, alloc: Global, words: &mut Words<'_>, said: &mut Said) -> Result<(), RowFault> {
        let place = words.thirty_two()?;
        let Some(stripe) = &self.stripe else {
            return Err(RowFault::NotARow);
        };
        match stripe.history().get(place as usize) {
            Some(entry) => say_entry(alloc, entry, said),
            None => said.word("none"),
        }
    }
}
