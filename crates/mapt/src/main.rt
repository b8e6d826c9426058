//! A MAP-T domain: customer edges and a border relay (RFC 7599).
#![tactic(auto)]

use mapt_tool::{Status, mapt};
use outside::{FreeGate, RealFolder, RealSink};
use std::alloc::Global;
use std::env;
use std::io::ErrorKind;
use std::process::ExitCode;

/// The words behind the program's name. Where one of them is no text, the command line is faulty from its first
/// word on: which word it is can't be told.
fn words_of(rt: &HostRuntime, alloc: Global) -> Result<Vec<String>, Status> {
    let all = match env::args(rt) {
        Ok(all) => all,
        Err(fault) if fault.kind() == ErrorKind::InvalidData => return Err(Status::Usage(0)),
        Err(_) => return Err(Status::NoMemory),
    };
    let mut words = Vec::new(alloc);
    for word in all.skip(1) {
        if words.push(word).is_err() {
            return Err(Status::NoMemory);
        }
    }
    Ok(words)
}

fn main(rt: HostRuntime) -> ExitCode {
    let alloc = rt.alloc();
    let mut folder = RealFolder::new(&rt);
    let mut out = RealSink::new(&rt);
    let status = match words_of(&rt, alloc) {
        Ok(words) => mapt(&rt, alloc, &words, &mut folder, &mut out, &FreeGate::new()),
        Err(status) => status,
    };
    if status != Status::Done {
        let _ = eprintln!(rt; "mapt: {status}");
    }
    ExitCode::from(status.number())
}

#[cfg(test)]
mod tests;
