//! The relay: what it asks of its notes, and its hops under the rules of a book.

ghost use Rattle.std.specs.Prelude.{◌≡◌, ◌<◌, IsTrue, None};
ghost use Rattle.std.specs.Option.{option_map};
ghost use Rattle.relay_node.specs.Asked.{IsTold, MayBeTold};

use crate::drawn::{mtus, parcels, ports};
use crate::notes::{key, say_key};
use crate::sent::{say_fault, say_hop, say_unmet};
use frag_table::{FragAnswer, FragAsk};
use map_rules::{Dmr, Rule};
use octets::{Addr4, Fault, Mtus, Prefix6};
use relay_node::{RelayParams, frag_of, relay_hop, stripe_of};
use rows::{RowFault, Said, Words};
use rule_book::{Book, BookFault};
use std::alloc::Global;

/// The relay of consecutive rows, and its book once one is given.
#[derive(Drop)]
pub struct RelayRows {
    params: RelayParams,
    book: Option<Book>,
}

/// Whether a packet comes from the access network, and else from IPv4.
fn six(words: &mut Words<'_>) -> Result<bool, RowFault> {
    match words.word()? {
        "access" => Ok(true),
        "ipv4" => Ok(false),
        _ => Err(RowFault::NotARow),
    }
}

/// What the notes told, if anything.
fn told(alloc: Global, words: &mut Words<'_>) -> Result<Option<FragAnswer>, RowFault> {
    Ok(match words.word()? {
        "nothing" => None,
        "noted" => Some(FragAnswer::Noted),
        "known" => Some(FragAnswer::Known(ports(words)?)),
        "held" => Some(FragAnswer::Held),
        "released" => Some(FragAnswer::Released(parcels(alloc, words)?)),
        "full" => Some(FragAnswer::Full),
        _ => return Err(RowFault::NotARow),
    })
}

/// Whether this ask may be told this.
fn may_be_told(ask: &Option<FragAsk>, told: Option<&FragAnswer>) -> bool
    ensures { IsTrue result → MayBeTold ask.now (option_map (λ answer. answer.now) told.entry) }
{
    match (ask, told) {
        (None, None) => true,
        (
            Some(FragAsk::First(_, _)),
            Some(FragAnswer::Noted | FragAnswer::Released(_) | FragAnswer::Full),
        ) => true,
        (
            Some(FragAsk::Later(_, _)),
            Some(FragAnswer::Known(_) | FragAnswer::Held | FragAnswer::Full),
        ) => true,
        _ => false,
    }
}

/// Whether nothing is told.
fn is_nothing(told: Option<&FragAnswer>) -> bool
    ensures { IsTrue result → option_map (λ answer. answer.now) told.entry ≡ None }
{
    match told {
        None => true,
        Some(_) => false,
    }
}

/// Whether this may be told of the packet.
fn is_told(alloc: Global, six: bool, packet: &[u8], told: Option<&FragAnswer>) -> bool
    ensures { IsTrue result → IsTold six packet.now (option_map (λ answer. answer.now) told.entry) }
{
    match frag_of(alloc, six, packet) {
        Ok(ask) => may_be_told(&ask, told),
        Err(Fault::Drop(_)) => is_nothing(told),
        Err(Fault::NoMemory) => false,
    }
}

/// `frag_of SIDE PACKET`
fn frag(alloc: Global, words: &mut Words<'_>, said: &mut Said) -> Result<(), RowFault> {
    let six = six(words)?;
    let packet = words.octets(alloc)?;
    match frag_of(alloc, six, packet.as_slice()) {
        Ok(None) => said.word("nothing"),
        Ok(Some(FragAsk::First(key, ports))) => {
            said.word("first")?;
            say_key(alloc, said, &key)?;
            said.number(u64::from(ports.src))?;
            said.number(u64::from(ports.dst))
        }
        Ok(Some(FragAsk::Later(key, octets))) => {
            said.word("later")?;
            say_key(alloc, said, &key)?;
            said.octets(octets.as_slice())
        }
        Err(fault) => say_fault(said, fault),
    }
}

/// `stripe_of KEY`
fn stripe(words: &mut Words<'_>, said: &mut Said) -> Result<(), RowFault> {
    let key = key(words)?;
    said.number(u64::from(stripe_of(&key)))
}

/// A rule: both prefixes, the EA bits and the offset.
fn rule(words: &mut Words<'_>) -> Result<Rule, RowFault> {
    let prefix6 = words.prefix6()?;
    let prefix4 = words.prefix4()?;
    let ea = words.eight()?;
    let offset = words.eight()?;
    Rule::new(prefix6, prefix4, ea, offset, false).map_err(|_| RowFault::NotARow)
}

/// The book of a default mapping rule and of so many rules.
fn book(alloc: Global, words: &mut Words<'_>) -> Result<Book, RowFault> {
    let Some(dmr) = Dmr::new(words.prefix6()?) else {
        return Err(RowFault::NotARow);
    };
    let mut rules = Vec::new(alloc);
    for _ in 0..words.eight()? {
        if rules.push(rule(words)?).is_err() {
            return Err(RowFault::NoMemory);
        }
    }
    match Book::start(alloc, &rules, dmr) {
        Ok(book) => Ok(book),
        Err(BookFault::NoMemory) => Err(RowFault::NoMemory),
        Err(_) => Err(RowFault::NotARow),
    }
}

impl RelayRows {
    /// A relay with the address 198.51.100.1 and MTUs of 1500, which has no book yet.
    pub fn new() -> RelayRows {
        RelayRows {
            params: RelayParams {
                relay4: Addr4(0xc633_6401),
                mtus: Mtus {
                    mtu4: 1500,
                    mtu6: 1500,
                },
            },
            book: None,
        }
    }

    /// `relay ADDRESS MTUS`: the relay of the rows that follow.
    fn relay(&mut self, words: &mut Words<'_>, said: &mut Said) -> Result<(), RowFault> {
        let relay4 = words.addr4()?;
        let Some(mtus) = mtus(words)? else {
            return said.flag(false);
        };
        self.params = RelayParams { relay4, mtus };
        said.flag(true)
    }

    /// `book DEFAULT_RULE COUNT RULES`: its rules.
    fn rules(
        &mut self,
        alloc: Global,
        words: &mut Words<'_>,
        said: &mut Said,
    ) -> Result<(), RowFault> {
        self.book = Some(book(alloc, words)?);
        said.flag(true)
    }

    /// `relay_hop SIDE PACKET IDENTIFICATION TOLD`
    fn hop(&self, alloc: Global, words: &mut Words<'_>, said: &mut Said) -> Result<(), RowFault> {
        let six = six(words)?;
        let packet = words.octets(alloc)?;
        let id = words.sixteen()?;
        let told = told(alloc, words)?;
        let Some(view) = &self.book else {
            return Err(RowFault::NotARow);
        };
        if !is_told(alloc, six, packet.as_slice(), told.as_ref()) {
            return say_unmet(said);
        }
        let hop = relay_hop(
            alloc,
            view,
            &self.params,
            six,
            packet.as_slice(),
            id,
            told.as_ref(),
        )?;
        say_hop(said, &hop)
    }

    /// Makes the call.
    pub fn answer(
        &mut self,
        alloc: Global,
        verb: &str,
        words: &mut Words<'_>,
        said: &mut Said,
    ) -> Result<(), RowFault> {
        match verb {
            "relay" => self.relay(words, said),
            "book" => self.rules(alloc, words, said),
            "frag_of" => frag(alloc, words, said),
            "stripe_of" => stripe(words, said),
            _ => self.hop(alloc, words, said),
        }
    }
}
