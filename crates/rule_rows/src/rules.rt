//! `rule.CALL RULE ..`, `dmr.CALL PREFIX ..`, `line.CALL ..`: a rule is its IPv6 and its IPv4 prefix, the number of EA bits, the
//! offset, and `yes` where it forwards.

use crate::sets::say_set;
use crate::spelling::say_text;
use map_rules::{Dmr, EdgeId, Rule};
use octets::{Addr4, Addr6};
use rows::{RowFault, Said, Words};
use rule_book::{RuleParts, dmr_line};
use std::alloc::Global;

/// The parts of a rule.
pub fn parts_of(words: &mut Words<'_>) -> Result<RuleParts, RowFault> {
    let prefix6 = words.prefix6()?;
    let prefix4 = words.prefix4()?;
    let ea = words.eight()?;
    let offset = words.eight()?;
    let forward = words.flag()?;
    Ok(RuleParts {
        prefix6,
        prefix4,
        ea,
        offset,
        forward,
    })
}

/// The rule of the next words, or the number of the shape rule that they break.
fn made(words: &mut Words<'_>) -> Result<Result<Rule, u8>, RowFault> {
    let parts = parts_of(words)?;
    Ok(Rule::new(
        parts.prefix6,
        parts.prefix4,
        parts.ea,
        parts.offset,
        parts.forward,
    ))
}

/// The rule of the next words.
pub fn rule_of(words: &mut Words<'_>) -> Result<Rule, RowFault> {
    made(words)?.map_err(|_| RowFault::NotARow)
}

/// Says the parts of a rule.
pub fn say_rule(alloc: Global, rule: &Rule, said: &mut Said) -> Result<(), RowFault> {
    said.prefix6(alloc, &rule.prefix6)?;
    said.prefix4(alloc, &rule.prefix4)?;
    said.number(u64::from(rule.ea))?;
    said.number(u64::from(rule.offset))?;
    said.flag(rule.forward)
}

/// Says what an edge holds, or `none`.
pub fn say_edge(alloc: Global, edge: Option<EdgeId>, said: &mut Said) -> Result<(), RowFault> {
    let Some(edge) = edge else {
        return said.word("none");
    };
    said.addr4(alloc, edge.addr)?;
    say_set(&edge.ports, said)?;
    said.addr6(alloc, edge.own6)
}

/// Says an IPv6 address, or `none`.
pub fn say_addr6(alloc: Global, addr: Option<Addr6>, said: &mut Said) -> Result<(), RowFault> {
    match addr {
        Some(addr) => said.addr6(alloc, addr),
        None => said.word("none"),
    }
}

/// Says an IPv4 address, or `none`.
fn say_addr4(alloc: Global, addr: Option<Addr4>, said: &mut Said) -> Result<(), RowFault> {
    match addr {
        Some(addr) => said.addr4(alloc, addr),
        None => said.word("none"),
    }
}

/// Says the IPv4 address and the port set whose MAP address it is, or `none`.
fn say_source(alloc: Global, rule: &Rule, s: Addr6, said: &mut Said) -> Result<(), RowFault> {
    match rule.source(s) {
        Some((addr, ports)) => {
            said.addr4(alloc, addr)?;
            say_set(&ports, said)
        }
        None => said.word("none"),
    }
}

fn ask(
    alloc: Global,
    call: &str,
    rule: &Rule,
    words: &mut Words<'_>,
    said: &mut Said,
) -> Result<(), RowFault> {
    match call {
        "new" => say_rule(alloc, rule, said),
        "edge_of" => say_edge(alloc, rule.edge_of(words.prefix6()?), said),
        "ce6" => {
            let addr = words.addr4()?;
            let port = words.sixteen()?;
            say_addr6(alloc, rule.ce6(addr, port), said)
        }
        "source" => say_source(alloc, rule, words.addr6()?, said),
        _ => Err(RowFault::NotARow),
    }
}

/// Makes a call of a rule. Where its parts don't go together, the shape rule that they break is the answer.
pub fn of_rule(
    alloc: Global,
    call: &str,
    words: &mut Words<'_>,
    said: &mut Said,
) -> Result<(), RowFault> {
    match made(words)? {
        Ok(rule) => ask(alloc, call, &rule, words, said),
        Err(broken) => {
            said.word("breaks")?;
            said.number(u64::from(broken))
        }
    }
}

/// Makes a call of a default mapping rule. Where the prefix is none of one, the answer is `none`.
pub fn of_dmr(
    alloc: Global,
    call: &str,
    words: &mut Words<'_>,
    said: &mut Said,
) -> Result<(), RowFault> {
    let Some(dmr) = Dmr::new(words.prefix6()?) else {
        return said.word("none");
    };
    match call {
        "new" => said.prefix6(alloc, &dmr.prefix),
        "embed" => said.addr6(alloc, dmr.embed(words.addr4()?)),
        "extract" => say_addr4(alloc, dmr.extract(words.addr6()?), said),
        _ => Err(RowFault::NotARow),
    }
}

/// Says the line of a default mapping rule with this prefix, or of a rule with these parts.
pub fn of_line(
    alloc: Global,
    call: &str,
    words: &mut Words<'_>,
    said: &mut Said,
) -> Result<(), RowFault> {
    let line = match call {
        "dmr" => dmr_line(alloc, &words.prefix6()?)?,
        "rule" => parts_of(words)?.line(alloc)?,
        _ => return Err(RowFault::NotARow),
    };
    say_text(alloc, line.as_slice(), said)
}
