//! `setup.CALL ..`: configurations, which are texts of parts.

use crate::parts::Parts;
use crate::rules::say_rule;
use crate::spelling::say_text;
use mapt_setup::{EdgeLine, ForwardLine, MoveLine, Setup, SetupFault};
use octets::{Bytes, Name, Proto};
use rows::{RowFault, Said, Words};
use rule_book::Change;
use std::alloc::Global;

/// Says a name in quotes, or `-`.
fn say_name(alloc: Global, name: &Option<Name>, said: &mut Said) -> Result<(), RowFault> {
    match name {
        Some(name) => {
            let mut quoted = Bytes::new(alloc);
            quoted.push(b'"')?;
            quoted.extend(name.as_str().as_bytes())?;
            quoted.push(b'"')?;
            say_text(alloc, quoted.as_slice(), said)
        }
        None => said.word("-"),
    }
}

fn say_edge(alloc: Global, edge: &EdgeLine, said: &mut Said) -> Result<(), RowFault> {
    said.word("edge")?;
    said.text(edge.name.as_slice())?;
    said.prefix6(alloc, &edge.prefix)?;
    said.addr4(alloc, edge.lan)?;
    say_name(alloc, &edge.capture, said)
}

fn proto_word(proto: Proto) -> &'static str {
    match proto {
        Proto::Tcp => "tcp",
        Proto::Udp => "udp",
        Proto::Icmp => "icmp",
    }
}

fn say_forward(alloc: Global, forward: &ForwardLine, said: &mut Said) -> Result<(), RowFault> {
    let binding = &forward.binding;
    said.word("forward")?;
    said.number(u64::from(forward.edge))?;
    said.word(proto_word(binding.proto))?;
    said.number(u64::from(binding.port))?;
    said.addr4(alloc, binding.host)?;
    said.number(u64::from(binding.host_port))?;
    said.word("until")?;
    said.number(binding.deadline)?;
    said.word("live")?;
    said.flag(binding.live)?;
    said.word("kept")?;
    said.flag(binding.kept)
}

fn say_change(alloc: Global, change: &Change, said: &mut Said) -> Result<(), RowFault> {
    match change {
        Change::Add(rule) => {
            said.word("add")?;
            say_rule(alloc, rule, said)
        }
        Change::Remove(prefix) => {
            said.word("remove")?;
            said.prefix6(alloc, prefix)
        }
        Change::Replace(prefix, rule) => {
            said.word("replace")?;
            said.prefix6(alloc, prefix)?;
            say_rule(alloc, rule, said)
        }
    }
}

fn say_move(alloc: Global, line: &MoveLine, said: &mut Said) -> Result<(), RowFault> {
    said.word("change")?;
    said.number(line.at)?;
    said.word("live")?;
    said.flag(line.live)?;
    say_change(alloc, &line.change, said)
}

/// Says the relay's address, the greatest packets, and the captures of the access network and of the core.
fn say_domain(alloc: Global, setup: &Setup, said: &mut Said) -> Result<(), RowFault> {
    said.word("relay")?;
    said.addr4(alloc, setup.relay)?;
    said.word("mtu")?;
    said.number(u64::from(setup.mtus.mtu4))?;
    said.number(u64::from(setup.mtus.mtu6))?;
    said.word("access")?;
    say_name(alloc, &setup.access, said)?;
    said.word("core")?;
    say_name(alloc, &setup.core, said)
}

/// Says a setup but for its book.
fn say_setup(alloc: Global, setup: &Setup, said: &mut Said) -> Result<(), RowFault> {
    say_domain(alloc, setup, said)?;
    for edge in setup.edges.as_slice() {
        say_edge(alloc, edge, said)?;
    }
    for forward in setup.forwards.as_slice() {
        say_forward(alloc, forward, said)?;
    }
    for line in setup.changes.as_slice() {
        say_move(alloc, line, said)?;
    }
    Ok(())
}

/// Says the cause and the place of a refusal.
fn say_refusal(fault: SetupFault, said: &mut Said) -> Result<(), RowFault> {
    match fault {
        SetupFault::Refused(cause, place) => {
            said.shown(&cause)?;
            said.number(u64::from(place))
        }
        SetupFault::NoMemory => Err(RowFault::NoMemory),
    }
}

/// `setup.book GENERATION TEXT`: the text of the book of a generation.
fn book(
    alloc: Global,
    parts: &Parts,
    words: &mut Words<'_>,
    said: &mut Said,
) -> Result<(), RowFault> {
    let generation = words.thirty_two()?;
    let text = parts.text(alloc, words)?;
    let setup = match Setup::read(alloc, text.as_slice()) {
        Ok(setup) => setup,
        Err(fault) => return say_refusal(fault, said),
    };
    match setup.book(alloc, generation) {
        Ok(book) => say_text(alloc, book.text(alloc)?.as_slice(), said),
        Err(fault) => say_refusal(fault, said),
    }
}

/// Makes a call of a configuration.
pub fn answer(
    alloc: Global,
    parts: &Parts,
    call: &str,
    words: &mut Words<'_>,
    said: &mut Said,
) -> Result<(), RowFault> {
    if call == "book" {
        return book(alloc, parts, words, said);
    }
    let text = parts.text(alloc, words)?;
    match (call, Setup::read(alloc, text.as_slice())) {
        ("read", Ok(setup)) => say_setup(alloc, &setup, said),
        ("read", Err(fault)) => say_refusal(fault, said),
        ("fault", Err(fault)) => said.text(fault.to_string(alloc)?.as_bytes()),
        _ => Err(RowFault::NotARow),
    }
}
