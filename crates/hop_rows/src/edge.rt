//! An edge: what it asks about a packet, and what it emits by its machine's answer.

ghost use Rattle.edge_node.specs.Hop.{IsAnswerAt};

use crate::drawn::mtus;
use crate::machine::{self, is_answer_at, say_ask};
use crate::sent::{say_fault, say_hop, say_unmet};
use edge_node::{EdgeParams, Way, ask_of, emit};
use hops::Hop;
use nat_model::Answer;
use octets::{Addr4, Fault, Mtus, Parcels};
use rows::{RowFault, Said, Words};
use std::alloc::Global;

/// The edge of consecutive rows.
#[derive(Drop)]
pub struct EdgeRows {
    params: EdgeParams,
}

/// A packet that a row has come to the edge, and the identification of what is cut of it.
#[derive(Clone, Copy)]
struct Coming<'a> {
    way: Way,
    packet: &'a [u8],
    id: u16,
}

/// Says a hop, or that the call's condition isn't met.
fn say_made(said: &mut Said, hop: Option<Hop>) -> Result<(), RowFault> {
    match hop {
        Some(hop) => say_hop(said, &hop),
        None => say_unmet(said),
    }
}

/// Where a packet comes from.
fn way(words: &mut Words<'_>) -> Result<Way, RowFault> {
    match words.word()? {
        "lan" => Ok(Way::Lan),
        "access" => Ok(Way::Access),
        "turned" => Ok(Way::Turned),
        _ => Err(RowFault::NotARow),
    }
}

/// `ask_of WAY PACKET`
fn ask(alloc: Global, words: &mut Words<'_>, said: &mut Said) -> Result<(), RowFault> {
    let way = way(words)?;
    let packet = words.octets(alloc)?;
    match ask_of(alloc, way, packet.as_slice()) {
        Ok(ask) => say_ask(alloc, said, &ask),
        Err(fault) => say_fault(said, fault),
    }
}

impl EdgeRows {
    /// An edge with the LAN address 192.168.1.1 and MTUs of 1500.
    pub fn new() -> EdgeRows {
        EdgeRows {
            params: EdgeParams {
                lan: Addr4(0xc0a8_0101),
                mtus: Mtus {
                    mtu4: 1500,
                    mtu6: 1500,
                },
            },
        }
    }

    /// `home LAN MTUS`: the edge of the rows that follow.
    fn home(&mut self, words: &mut Words<'_>, said: &mut Said) -> Result<(), RowFault> {
        let lan = words.addr4()?;
        let Some(mtus) = mtus(words)? else {
            return said.flag(false);
        };
        self.params = EdgeParams { lan, mtus };
        said.flag(true)
    }

    /// What the edge emits of a packet that is asked about. None where it asks about none.
    fn emitted(
        &self,
        alloc: Global,
        coming: &Coming<'_>,
        answer: &Answer,
    ) -> Result<Option<Hop>, RowFault>
        requires { IsAnswerAt coming.now.way answer.now }
    {
        let Coming { way, packet, id } = *coming;
        match ask_of(alloc, way, packet) {
            Ok(_) => Ok(Some(emit(alloc, &self.params, way, answer, packet, id)?)),
            Err(Fault::Drop(_)) => Ok(None),
            Err(Fault::NoMemory) => Err(RowFault::NoMemory),
        }
    }

    /// What it makes of a packet that it drops before it asks. None where it asks about it.
    fn dropped(&self, alloc: Global, coming: &Coming<'_>) -> Result<Option<Hop>, RowFault> {
        let Coming { way, packet, id } = *coming;
        match ask_of(alloc, way, packet) {
            Ok(_) => Ok(None),
            Err(Fault::NoMemory) => Err(RowFault::NoMemory),
            Err(Fault::Drop(cause)) => {
                let answer = Answer::Refused {
                    cause,
                    freed: Parcels::new(alloc),
                };
                Ok(Some(emit(alloc, &self.params, way, &answer, packet, id)?))
            }
        }
    }

    /// `emit WAY PACKET IDENTIFICATION ANSWER`: by the machine's answer, or by `dropped`, which is the refusal of a packet
    /// that isn't asked about.
    fn emit(&self, alloc: Global, words: &mut Words<'_>, said: &mut Said) -> Result<(), RowFault> {
        let way = way(words)?;
        let packet = words.octets(alloc)?;
        let id = words.sixteen()?;
        let word = words.word()?;
        let coming = Coming {
            way,
            packet: packet.as_slice(),
            id,
        };
        if word == "dropped" {
            return say_made(said, self.dropped(alloc, &coming)?);
        }
        let answer = machine::answer(alloc, word, words)?;
        if !is_answer_at(way, &answer) {
            return say_unmet(said);
        }
        say_made(said, self.emitted(alloc, &coming, &answer)?)
    }

    /// Makes the call.
    pub fn answer(
        &mut self,
        alloc: Global,
        verb: &str,
        words: &mut Words<'_>,
        said: &mut Said,
    ) -> Result<(), RowFault> {
        match verb {
            "home" => self.home(words, said),
            "ask_of" => ask(alloc, words, said),
            _ => self.emit(alloc, words, said),
        }
    }
}
