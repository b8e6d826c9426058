//! Rows of octets: what they sum to, which texts, packets, messages and captures they spell, and how each is written.
#![tactic(auto)]

mod capture;
mod cause;
mod error;
mod inner;
mod ip4;
mod ip6;
mod kept;
mod message;
mod number;
mod prefix;
mod pseudo;
mod replaced;
mod sums;
mod text;
mod transport;

use rows::{Calls, RowFault, Said, Words, compare_rows};
use std::alloc::Global;
use std::io;
use std::process::ExitCode;

/// The calls of the crates of octets, packets and captures. No two rows share anything.
#[derive(Drop)]
struct OctetCalls;

impl Calls for OctetCalls {
    fn answer(
        &mut self,
        alloc: Global,
        verb: &str,
        words: &mut Words<'_>,
        said: &mut Said,
    ) -> Result<(), RowFault> {
        let Some((subject, call)) = verb.split_once('.') else {
            return Err(RowFault::NotARow);
        };
        match subject {
            "sum" => sums::answer(alloc, call, words, said),
            "number" => number::answer(alloc, call, words, said),
            "cause" => cause::answer(call, words, said),
            "kept" => kept::answer(alloc, call, words, said),
            "text" => text::answer(alloc, call, words, said),
            "prefix" => prefix::answer(alloc, call, words, said),
            "ip4" => ip4::answer(alloc, call, words, said),
            "ip6" => ip6::answer(alloc, call, words, said),
            "transport" => transport::answer(alloc, call, words, said),
            "pseudo" => pseudo::answer(call, words, said),
            "replaced" => replaced::answer(alloc, call, words, said),
            "message" => message::answer(alloc, call, words, said),
            "inner" => inner::answer(alloc, call, words, said),
            "error" => error::answer(alloc, call, words, said),
            "capture" => capture::answer(alloc, call, words, said),
            _ => Err(RowFault::NotARow),
        }
    }
}

fn main(rt: HostRuntime) -> io::Result<ExitCode> {
    compare_rows(&rt, &mut OctetCalls)
}
