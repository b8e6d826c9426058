//! Rows of hops: of an edge and of the relay, and of what a hop is made of: packets that are read, translated and turned.
#![tactic(auto)]

mod drawn;
mod edge;
mod icmp;
mod kept;
mod machine;
mod notes;
mod packet;
mod relay;
mod sent;
mod translation;
mod turned;

use edge::EdgeRows;
use relay::RelayRows;
use rows::{Calls, RowFault, Said, Words, compare_rows};
use std::alloc::Global;
use std::io;
use std::process::ExitCode;

/// The calls, with the edge and the relay that consecutive rows share.
#[derive(Drop)]
struct Hops {
    edge: EdgeRows,
    relay: RelayRows,
}

impl Calls for Hops {
    fn answer(
        &mut self,
        alloc: Global,
        verb: &str,
        words: &mut Words<'_>,
        said: &mut Said,
    ) -> Result<(), RowFault> {
        match verb {
            "home" | "ask_of" | "emit" => self.edge.answer(alloc, verb, words, said),
            "relay" | "book" | "frag_of" | "stripe_of" | "relay_hop" => {
                self.relay.answer(alloc, verb, words, said)
            }
            "hop" => kept::answer(alloc, words, said),
            "packet4" | "packet6" => packet::answer(alloc, verb, words, said),
            "whole46" | "whole64" => translation::answer(alloc, verb, words, said),
            "icmp46" | "icmp64" => icmp::answer(alloc, verb, words, said),
            "turned_out" | "turned_in" => turned::answer(alloc, verb, words, said),
            _ => Err(RowFault::NotARow),
        }
    }
}

fn main(rt: HostRuntime) -> io::Result<ExitCode> {
    let mut hops = Hops {
        edge: EdgeRows::new(),
        relay: RelayRows::new(),
    };
    compare_rows(&rt, &mut hops)
}
