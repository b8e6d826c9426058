//! One edge with its history.

use crate::answers::say_answer;
use crate::asks::{read_ask, say_ask};
use crate::books::Books;
use crate::kept::{are_sound, read_bindings};
use crate::stripes::{read_who, say_who};
use edge_core::EdgeState;
use nat_model::Entry;
use rows::{RowFault, Said, Words};
use std::alloc::Global;

/// The edge that consecutive rows ask.
#[derive(Drop)]
pub(crate) struct Edges {
    edge: Option<EdgeState>,
}

/// Says an entry: who asked, the generations that were seen and used, the time, the ask and the answer.
fn say_entry(alloc: Global, entry: &Entry, said: &mut Said) -> Result<(), RowFault> {
    say_who(entry.mark.who, said)?;
    said.number(u64::from(entry.mark.seen))?;
    said.number(u64::from(entry.mark.used))?;
    said.number(entry.now)?;
    say_ask(alloc, &entry.ask, said)?;
    say_answer(alloc, &entry.answer, said)
}

impl Edges {
    /// No edge.
    pub(crate) fn new() -> Edges {
        Edges { edge: None }
    }

    /// The rows of an edge: `start`, `step`, `entries` and `entry`.
    pub(crate) fn answer(
        &mut self,
        alloc: Global,
        books: &Books,
        words: &mut Words<'_>,
        said: &mut Said,
    ) -> Result<(), RowFault> {
        match words.word()? {
            "start" => self.start(alloc, books, words, said),
            "step" => self.step(alloc, books, words, said),
            "entries" => self.entries(said),
            "entry" => self.entry(alloc, words, said),
            _ => Err(RowFault::NotARow),
        }
    }

    /// `start PREFIX GENERATION BINDING..`: the edge with this prefix, with these bindings from the start.
    fn start(
        &mut self,
        alloc: Global,
        books: &Books,
        words: &mut Words<'_>,
        said: &mut Said,
    ) -> Result<(), RowFault> {
        let prefix = words.prefix6()?;
        let book = books.of_generation(words.thirty_two()?)?;
        let kept = read_bindings(alloc, words)?;
        if !are_sound(book, prefix, kept.as_slice()) {
            return said.word("unmet");
        }
        self.edge = Some(EdgeState::start(alloc, prefix, book, kept.as_slice())?);
        said.word("started")
    }

    /// `step WHO TIME GENERATION ASK`.
    fn step(
        &mut self,
        alloc: Global,
        books: &Books,
        words: &mut Words<'_>,
        said: &mut Said,
    ) -> Result<(), RowFault> {
        let who = read_who(words)?;
        let now = words.number()?;
        let book = books.of_generation(words.thirty_two()?)?;
        let ask = read_ask(alloc, words)?;
        let Some(edge) = &mut self.edge else {
            return Err(RowFault::NotARow);
        };
        if now >= 1 << 63 {
            return said.word("unmet");
        }
        let answer = edge.step(who, now, book, &ask)?;
        say_answer(alloc, &answer, said)
    }

    /// `entries`: how many entries the history has.
    fn entries(&self, said: &mut Said) -> Result<(), RowFault> {
        let Some(edge) = &self.edge else {
            return Err(RowFault::NotARow);
        };
        said.number(edge.history().len() as u64)
    }

    /// `entry PLACE`: the entry at this place.
    fn entry(&self, alloc: Global, words: &mut Words<'_>, said: &mut Said) -> Result<(), RowFault> {
        let place = words.thirty_two()?;
        let Some(edge) = &self.edge else {
            return Err(RowFault::NotARow);
        };
        match edge.history().get(place as usize) {
            Some(entry) => say_entry(alloc, entry, said),
            None => said.word("none"),
        }
    }
}
