use crate::long::spelled_out;
use crate::said::Said;
use crate::words::{RowFault, Words};
use std::alloc::Global;
use std::io::{self, BufRead, BufReader};
use std::process::ExitCode;

/// The calls of a program of rows, with what consecutive rows share.
pub trait Calls {
    /// Makes the call that the verb names with these words, and says its answer.
    fn answer(
        &mut self,
        alloc: Global,
        verb: &str,
        words: &mut Words<'_>,
        said: &mut Said,
    ) -> Result<(), RowFault>;
}

/// How many rows agree and how many don't.
#[derive(Clone, Copy, Debug)]
struct Tally {
    agree: u64,
    differ: u64,
}

/// What the call of a row answers: the row's words up to the sign of equality, without it.
fn answer_to(alloc: Global, calls: &mut impl Calls, call: &str) -> Result<Said, RowFault> {
    let mut words = Words::of(call);
    let mut said = Said::new(alloc);
    let verb = words.word()?;
    calls.answer(alloc, verb, &mut words, &mut said)?;
    if !words.is_done() {
        return Err(RowFault::NotARow);
    }
    Ok(said)
}

/// What the call of a row answers, beside what the row says of it where that differs.
fn difference(alloc: Global, calls: &mut impl Calls, line: &str) -> Result<Option<Said>, RowFault> {
    let line = spelled_out(alloc, line)?;
    let Some((call, expected)) = line.as_str().split_once(" = ") else {
        return Err(RowFault::NotARow);
    };
    let said = answer_to(alloc, calls, call)?;
    if said.as_str() == expected {
        return Ok(None);
    }
    Ok(Some(said))
}

/// Whether the line is a row: not empty, and no comment.
fn is_row(line: &str) -> bool {
    !line.is_empty() && !line.starts_with('#')
}

/// Makes the call of each row of standard input, prints each answer that differs, and then how many rows agree and
/// how many don't. The status is 0 where all rows agree.
pub fn compare_rows<R: AllocGlobal + Input + Print>(
    rt: &R,
    calls: &mut impl Calls,
) -> io::Result<ExitCode> {
    let alloc = rt.alloc();
    let mut tally = Tally {
        agree: 0,
        differ: 0,
    };
    let mut number = 0u64;
    for line in BufReader::new(alloc, rt.reader())?.lines(alloc) {
        let line = line?;
        number = number.saturating_add(1);
        if !is_row(line.as_str()) {
            continue;
        }
        match difference(alloc, calls, line.as_str()) {
            Ok(None) => tally.agree = tally.agree.saturating_add(1),
            Ok(Some(said)) => {
                tally.differ = tally.differ.saturating_add(1);
                println!(rt; "line {number}: {}", said.as_str())?;
            }
            Err(fault) => {
                tally.differ = tally.differ.saturating_add(1);
                println!(rt; "line {number}: {fault:?}")?;
            }
        }
    }
    println!(rt; "{} rows agree, {} differ", tally.agree, tally.differ)?;
    Ok(ExitCode::from(if tally.differ == 0 { 0 } else { 1 }))
}
