//! Long octets by a rule: `HEX+FROM*COUNT` is HEX and behind it so many octets that count upwards from FROM, modulo 251.

use crate::words::RowFault;
use std::alloc::Global;
use std::fmt::Write;

/// The octets that count upwards start again behind this many.
const ROUND: u64 = 251;

/// The three parts of a word of that form.
fn parts(word: &str) -> Option<(&str, u64, u64)> {
    let (digits, rule) = word.split_once('+')?;
    let (from, count) = rule.split_once('*')?;
    let from = from.parse::<u64>().ok()?;
    let count = count.parse::<u64>().ok()?;
    Some((digits, from, count))
}

/// Adds the word, spelled out where it has that form.
fn spell(text: &mut String, word: &str) -> Result<(), RowFault> {
    let Some((digits, from, count)) = parts(word) else {
        text.push_str(word)?;
        return Ok(());
    };
    text.push_str(digits)?;
    for i in 0..count {
        let octet = (from % ROUND + i % ROUND) % ROUND;
        write!(text, "{octet:02x}").map_err(|_| RowFault::NoMemory)?;
    }
    Ok(())
}

/// The line with each word of that form spelled out.
pub(crate) fn spelled_out(alloc: Global, line: &str) -> Result<String, RowFault> {
    let mut text = String::new(alloc);
    let mut first = true;
    for word in line.split(' ') {
        if !first {
            text.push(' ')?;
        }
        first = false;
        spell(&mut text, word)?;
    }
    Ok(text)
}
