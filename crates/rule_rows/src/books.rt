//! `book.start DMR RULE ..` and `book.changed CHANGE` put a book on the shelf, and the other calls ask it.

use crate::rules::{rule_of, say_addr6, say_edge, say_rule};
use crate::spelling::say_text;
use map_rules::{Dmr, Rule};
use octets::{Addr4, Addr6, Bytes, Prefix6};
use rows::{RowFault, Said, Words};
use rule_book::{Book, Change, FarOf, RuleView, owner_line};
use std::alloc::Global;

/// The most rules or edges of a row.
const MOST: u32 = 300;

/// The book that the last row made.
#[derive(Debug, Drop)]
pub struct Shelf {
    book: Option<Book>,
}

/// A change: `add RULE`, `remove PREFIX`, or `replace PREFIX RULE`.
fn change_of(words: &mut Words<'_>) -> Result<Change, RowFault> {
    match words.word()? {
        "add" => Ok(Change::Add(rule_of(words)?)),
        "remove" => Ok(Change::Remove(words.prefix6()?)),
        "replace" => {
            let prefix = words.prefix6()?;
            Ok(Change::Replace(prefix, rule_of(words)?))
        }
        _ => Err(RowFault::NotARow),
    }
}

/// The rules of the words that are left.
fn rules_of(alloc: Global, words: &mut Words<'_>) -> Result<Vec<Rule>, RowFault> {
    let mut rules = Vec::new(alloc);
    for _ in 0..MOST {
        if words.is_done() {
            break;
        }
        rules.push(rule_of(words)?).map_err(|_| RowFault::NoMemory)?;
    }
    Ok(rules)
}

/// Says what stands behind a source.
fn say_far(alloc: Global, far: FarOf, said: &mut Said) -> Result<(), RowFault> {
    match far {
        FarOf::Addr(addr) => said.addr4(alloc, addr),
        FarOf::Spoofed => said.word("Spoofed"),
        FarOf::NotDefault => said.word("NotDefault"),
    }
}

/// Says a book: its generation and its text.
fn say_book(alloc: Global, book: &Book, said: &mut Said) -> Result<(), RowFault> {
    said.number(u64::from(book.generation()))?;
    say_text(alloc, book.text(alloc)?.as_slice(), said)
}

/// An IPv4 address and a port.
fn end_of(words: &mut Words<'_>) -> Result<(Addr4, u16), RowFault> {
    let addr = words.addr4()?;
    let port = words.sixteen()?;
    Ok((addr, port))
}

/// `book.owner_line ADDRESS PORT NAME PREFIX ..`: the line, where the edges have these names and prefixes.
fn say_owner(
    alloc: Global,
    book: &Book,
    words: &mut Words<'_>,
    said: &mut Said,
) -> Result<(), RowFault> {
    let (addr, port) = end_of(words)?;
    let mut names: Vec<Bytes> = Vec::new(alloc);
    let mut prefixes: Vec<Prefix6> = Vec::new(alloc);
    for _ in 0..MOST {
        if words.is_done() {
            break;
        }
        let mut name = Bytes::new(alloc);
        name.extend(words.word()?.as_bytes())?;
        names.push(name).map_err(|_| RowFault::NoMemory)?;
        prefixes
            .push(words.prefix6()?)
            .map_err(|_| RowFault::NoMemory)?;
    }
    if prefixes.len() != names.len() {
        return said.word("unmet");
    }
    let line = owner_line(alloc, book, &prefixes, &names, addr, port)?;
    say_text(alloc, line.as_slice(), said)
}

/// Asks the book for one of its parts.
fn part_of(
    alloc: Global,
    call: &str,
    book: &Book,
    words: &mut Words<'_>,
    said: &mut Said,
) -> Result<(), RowFault> {
    match call {
        "generation" => said.number(u64::from(book.generation())),
        "count" => said.number(u64::from(book.count())),
        "dmr" => said.prefix6(alloc, &book.dmr().prefix),
        "rule" => match book.rule(words.thirty_two()?) {
            Some(rule) => say_rule(alloc, &rule, said),
            None => said.word("none"),
        },
        "text" => say_text(alloc, book.text(alloc)?.as_slice(), said),
        "copy" => say_book(alloc, &book.copy(alloc)?, said),
        "of_view" => say_book(alloc, &Book::of_view(alloc, book)?, said),
        _ => Err(RowFault::NotARow),
    }
}

/// Asks the book who holds or stands behind something.
fn ask(
    alloc: Global,
    call: &str,
    book: &Book,
    words: &mut Words<'_>,
    said: &mut Said,
) -> Result<(), RowFault> {
    match call {
        "edge_of" => say_edge(alloc, book.edge_of(words.prefix6()?), said),
        "owner" => {
            let (addr, port) = end_of(words)?;
            say_addr6(alloc, book.owner(addr, port), said)
        }
        "forward" => {
            let (addr, port) = end_of(words)?;
            say_addr6(alloc, book.forward(addr, port), said)
        }
        "covers4" => said.flag(book.covers4(words.addr4()?)),
        "far4" => {
            let addr: Addr6 = words.addr6()?;
            let port = words.sixteen()?;
            say_far(alloc, book.far4(addr, port), said)
        }
        "owner_line" => say_owner(alloc, book, words, said),
        _ => part_of(alloc, call, book, words, said),
    }
}

impl Shelf {
    pub fn new() -> Shelf {
        Shelf { book: None }
    }

    /// Makes a book, and keeps it.
    fn start(
        &mut self,
        alloc: Global,
        words: &mut Words<'_>,
        said: &mut Said,
    ) -> Result<(), RowFault> {
        let Some(dmr) = Dmr::new(words.prefix6()?) else {
            return Err(RowFault::NotARow);
        };
        let rules = rules_of(alloc, words)?;
        match Book::start(alloc, &rules, dmr) {
            Ok(book) => {
                said.word("made")?;
                self.book = Some(book);
                Ok(())
            }
            Err(fault) => said.shown(&fault),
        }
    }

    /// Changes the book. One that refuses the change stays.
    fn changed(
        &mut self,
        alloc: Global,
        words: &mut Words<'_>,
        said: &mut Said,
    ) -> Result<(), RowFault> {
        let change = change_of(words)?;
        let Some(book) = &self.book else {
            return Err(RowFault::NotARow);
        };
        if book.generation() == u32::MAX {
            return said.word("unmet");
        }
        match book.changed(alloc, &change) {
            Ok(book) => {
                said.number(u64::from(book.generation()))?;
                self.book = Some(book);
                Ok(())
            }
            Err(fault) => said.shown(&fault),
        }
    }

    /// Makes a call of a book.
    pub fn answer(
        &mut self,
        alloc: Global,
        call: &str,
        words: &mut Words<'_>,
        said: &mut Said,
    ) -> Result<(), RowFault> {
        match call {
            "start" => self.start(alloc, words, said),
            "changed" => self.changed(alloc, words, said),
            _ => match &self.book {
                Some(book) => ask(alloc, call, book, words, said),
                None => Err(RowFault::NotARow),
            },
        }
    }
}
