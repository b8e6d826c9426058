//! One table of notes on fragments.

use crate::fragments::{read_fragment, say_told, say_waiting};
use frag_table::FragTable;
use rows::{RowFault, Said, Words};
use std::alloc::Global;

/// The table that consecutive rows ask.
#[derive(Drop)]
pub(crate) struct Tables {
    table: Option<FragTable>,
}

impl Tables {
    /// No table.
    pub(crate) fn new() -> Tables {
        Tables { table: None }
    }

    /// The rows of a table: `start`, `step` and `waiting`.
    pub(crate) fn answer(
        &mut self,
        alloc: Global,
        words: &mut Words<'_>,
        said: &mut Said,
    ) -> Result<(), RowFault> {
        match words.word()? {
            "start" => {
                self.table = Some(FragTable::new(alloc));
                said.word("started")
            }
            "step" => self.step(alloc, words, said),
            "waiting" => self.waiting(alloc, words, said),
            _ => Err(RowFault::NotARow),
        }
    }

    /// `step TIME PLACE FRAGMENT`, with copies of what is asked and answered.
    fn step(
        &mut self,
        alloc: Global,
        words: &mut Words<'_>,
        said: &mut Said,
    ) -> Result<(), RowFault> {
        let now = words.number()?;
        let place = words.number()?;
        let ask = read_fragment(alloc, words)?.copy(alloc)?;
        let Some(table) = &mut self.table else {
            return Err(RowFault::NotARow);
        };
        if now >= 1 << 63 {
            return said.word("unmet");
        }
        let answer = table.step(now, place, &ask)?.copy(alloc)?;
        say_told(&answer, said)
    }

    /// `waiting TIME FRAGMENT`.
    fn waiting(
        &self,
        alloc: Global,
        words: &mut Words<'_>,
        said: &mut Said,
    ) -> Result<(), RowFault> {
        let now = words.number()?;
        let ask = read_fragment(alloc, words)?;
        let Some(table) = &self.table else {
            return Err(RowFault::NotARow);
        };
        let parcels = table.waiting(now, &ask.fragment())?.copy(alloc)?;
        say_waiting(&parcels, said)
    }
}
