//! Rows of the calls of port sets, mapping rules, rule books, options, configurations, and of scripts and their traces.
#![tactic(auto)]

mod books;
mod calls;
mod captures;
mod containers;
mod options;
mod parts;
mod rules;
mod sets;
mod setups;
mod spelling;
mod traces;

use calls::RuleCalls;
use rows::compare_rows;
use std::io;
use std::process::ExitCode;

fn main(rt: HostRuntime) -> io::Result<ExitCode> {
    let mut calls = RuleCalls::new(rt.alloc());
    compare_rows(&rt, &mut calls)
}
