//! Rows of the notes on fragments, of the binding machine, and of the histories of edges and stripes.
#![tactic(auto)]

mod answers;
mod asks;
mod books;
mod edges;
mod fragments;
mod kept;
mod machines;
mod stripes;
mod tables;

use crate::books::Books;
use crate::edges::Edges;
use crate::kept::bindings_answer;
use crate::machines::Machines;
use crate::stripes::Stripes;
use crate::tables::Tables;
use rows::{Calls, RowFault, Said, Words, compare_rows};
use std::alloc::Global;
use std::io;
use std::process::ExitCode;

/// What consecutive rows share: the books that were made, and one of each subject.
#[derive(Drop)]
struct Subjects {
    books: Books,
    tables: Tables,
    machines: Machines,
    edges: Edges,
    stripes: Stripes,
}

impl Calls for Subjects {
    fn answer(
        &mut self,
        alloc: Global,
        verb: &str,
        words: &mut Words<'_>,
        said: &mut Said,
    ) -> Result<(), RowFault> {
        match verb {
            "book" => self.books.answer(alloc, words, said),
            "table" => self.tables.answer(alloc, words, said),
            "bindings" => bindings_answer(alloc, words, said),
            "machine" => self.machines.answer(alloc, &self.books, words, said),
            "edge" => self.edges.answer(alloc, &self.books, words, said),
            "stripe" => self.stripes.answer(alloc, words, said),
            _ => Err(RowFault::NotARow),
        }
    }
}

fn main(rt: HostRuntime) -> io::Result<ExitCode> {
    let mut subjects = Subjects {
        books: Books::new(rt.alloc()),
        tables: Tables::new(),
        machines: Machines::new(),
        edges: Edges::new(),
        stripes: Stripes::new(),
    };
    compare_rows(&rt, &mut subjects)
}
