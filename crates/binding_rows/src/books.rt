//! The books of rules that were made, by their generation.

use map_rules::{Dmr, Rule};
use rows::{RowFault, Said, Words};
use rule_book::{Book, BookFault, Change, RuleView};
use std::alloc::{AllocError, Global};

/// Books by rising generation, from 0.
#[derive(Drop)]
pub(crate) struct Books {
    books: Vec<Book>,
}

/// The next words as a rule: its prefixes, EA bits, offset, and whether it is a forwarding rule.
fn read_rule(words: &mut Words<'_>) -> Result<Rule, RowFault> {
    let prefix6 = words.prefix6()?;
    let prefix4 = words.prefix4()?;
    let ea = words.eight()?;
    let offset = words.eight()?;
    let forward = words.flag()?;
    Rule::new(prefix6, prefix4, ea, offset, forward).map_err(|_| RowFault::NotARow)
}

/// The next words as a change of rules.
fn read_change(words: &mut Words<'_>) -> Result<Change, RowFault> {
    match words.word()? {
        "add" => Ok(Change::Add(read_rule(words)?)),
        "remove" => Ok(Change::Remove(words.prefix6()?)),
        "replace" => {
            let prefix = words.prefix6()?;
            Ok(Change::Replace(prefix, read_rule(words)?))
        }
        _ => Err(RowFault::NotARow),
    }
}

/// Says a rule as it is read.
fn say_rule(alloc: Global, rule: &Rule, said: &mut Said) -> Result<(), RowFault> {
    said.prefix6(alloc, &rule.prefix6)?;
    said.prefix4(alloc, &rule.prefix4)?;
    said.number(u64::from(rule.ea))?;
    said.number(u64::from(rule.offset))?;
    said.flag(rule.forward)
}

impl Books {
    /// No books.
    pub(crate) fn new(alloc: Global) -> Books {
        Books {
            books: Vec::new(alloc),
        }
    }

    /// The book of this generation.
    pub(crate) fn of_generation(&self, generation: u32) -> Result<&Book, RowFault> {
        match self.books.get(generation as usize) {
            Some(book) => Ok(book),
            None => Err(RowFault::NotARow),
        }
    }

    /// The rows of books: `start`, `change` and `view`.
    pub(crate) fn answer(
        &mut self,
        alloc: Global,
        words: &mut Words<'_>,
        said: &mut Said,
    ) -> Result<(), RowFault> {
        match words.word()? {
            "start" => self.start(alloc, words, said),
            "change" => self.change(alloc, words, said),
            "view" => self.view(alloc, words, said),
            _ => Err(RowFault::NotARow),
        }
    }

    /// `start PREFIX RULE..`: the books are now this one, with this default mapping rule and these rules.
    fn start(
        &mut self,
        alloc: Global,
        words: &mut Words<'_>,
        said: &mut Said,
    ) -> Result<(), RowFault> {
        let Some(dmr) = Dmr::new(words.prefix6()?) else {
            return Err(RowFault::NotARow);
        };
        let mut rules = Vec::new(alloc);
        for _ in 0..u64::MAX {
            if words.is_done() {
                break;
            }
            rules.push(read_rule(words)?).map_err(AllocError::from)?;
        }
        let made = Book::start(alloc, &rules, dmr);
        self.books.clear();
        self.keep(made, said)
    }

    /// `change CHANGE`: the last book with this change is one book more.
    fn change(
        &mut self,
        alloc: Global,
        words: &mut Words<'_>,
        said: &mut Said,
    ) -> Result<(), RowFault> {
        let change = read_change(words)?;
        let Some(last) = self.books.last() else {
            return Err(RowFault::NotARow);
        };
        if last.generation() == u32::MAX {
            return said.word("unmet");
        }
        let made = last.changed(alloc, &change);
        self.keep(made, said)
    }

    /// Keeps a book that was made, and says its generation.
    fn keep(&mut self, made: Result<Book, BookFault>, said: &mut Said) -> Result<(), RowFault> {
        match made {
            Ok(book) => {
                let generation = book.generation();
                self.books.push(book).map_err(AllocError::from)?;
                said.number(u64::from(generation))
            }
            Err(fault) => said.shown(&fault),
        }
    }

    /// `view GENERATION`: the book that is made of this one as a view.
    fn view(&self, alloc: Global, words: &mut Words<'_>, said: &mut Said) -> Result<(), RowFault> {
        let seen = self.of_generation(words.thirty_two()?)?;
        let book = Book::of_view(alloc, seen)?;
        said.number(u64::from(book.generation()))?;
        said.prefix6(alloc, &book.dmr().prefix)?;
        for at in 0..book.count() {
            if let Some(rule) = book.rule(at) {
                say_rule(alloc, &rule, said)?;
            }
        }
        Ok(())
    }
}
