//! One binding machine.

ghost use Rattle.std.specs.Prelude.{◌≡◌};

use crate::answers::say_answer;
use crate::asks::read_ask;
use crate::books::Books;
use crate::fragments::say_waiting;
use crate::kept::{are_sound, read_bindings};
use nat_model::{Answer, Ask, Machine};
use octets::NoMemory;
use rows::{RowFault, Said, Words};
use rule_book::Book;
use std::alloc::Global;

/// A machine, with the number of its steps.
#[derive(Drop)]
struct Counted {
    machine: Machine,
    made: u64,
    ghost counted: { machine.steps ≡ made },
}

impl Counted {
    /// A step, and `None` where its conditions aren't met.
    fn step(&mut self, now: u64, view: &Book, ask: &Ask) -> Result<Option<Answer>, NoMemory> {
        if now >= 1 << 63 || self.made == u64::MAX {
            return Ok(None);
        }
        let answer = self.machine.step(now, view, ask)?;
        self.made += 1;
        Ok(Some(answer))
    }
}

/// The machine that consecutive rows ask.
#[derive(Drop)]
pub(crate) struct Machines {
    counted: Option<Counted>,
}

impl Machines {
    /// No machine.
    pub(crate) fn new() -> Machines {
        Machines { counted: None }
    }

    /// The rows of a machine: `start`, `step` and `waiting`.
    pub(crate) fn answer(
        &mut self,
        alloc: Global,
        books: &Books,
        words: &mut Words<'_>,
        said: &mut Said,
    ) -> Result<(), RowFault> {
        match words.word()? {
            "start" => self.start(alloc, books, words, said),
            "step" => self.step(alloc, books, words, said),
            "waiting" => self.waiting(alloc, words, said),
            _ => Err(RowFault::NotARow),
        }
    }

    /// `start PREFIX GENERATION BINDING..`: the machine of the edge with this prefix, with these bindings from the start.
    fn start(
        &mut self,
        alloc: Global,
        books: &Books,
        words: &mut Words<'_>,
        said: &mut Said,
    ) -> Result<(), RowFault> {
        let prefix = words.prefix6()?;
        let book = books.of_generation(words.thirty_two()?)?;
        let kept = read_bindings(alloc, words)?;
        if !are_sound(book, prefix, kept.as_slice()) {
            return said.word("unmet");
        }
        let machine = Machine::start(alloc, prefix, book, kept.as_slice())?;
        self.counted = Some(Counted { machine, made: 0 });
        said.word("started")
    }

    /// `step TIME GENERATION ASK`, with copies of what is asked and answered.
    fn step(
        &mut self,
        alloc: Global,
        books: &Books,
        words: &mut Words<'_>,
        said: &mut Said,
    ) -> Result<(), RowFault> {
        let now = words.number()?;
        let book = books.of_generation(words.thirty_two()?)?;
        let ask = read_ask(alloc, words)?.copy(alloc)?;
        let Some(counted) = &mut self.counted else {
            return Err(RowFault::NotARow);
        };
        match counted.step(now, book, &ask)? {
            Some(answer) => say_answer(alloc, &answer.copy(alloc)?, said),
            None => said.word("unmet"),
        }
    }

    /// `waiting TIME ASK`.
    fn waiting(
        &self,
        alloc: Global,
        words: &mut Words<'_>,
        said: &mut Said,
    ) -> Result<(), RowFault> {
        let now = words.number()?;
        let ask = read_ask(alloc, words)?;
        let Some(counted) = &self.counted else {
            return Err(RowFault::NotARow);
        };
        let parcels = counted.machine.waiting(now, &ask)?.copy(alloc)?;
        say_waiting(&parcels, said)
    }
}
