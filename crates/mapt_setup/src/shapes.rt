//! The rules that have the shape of one, and the book that they make.

ghost use Rattle.std.specs.Prelude.{◌≡◌, ◌≤◌, length, IfSome, IfNone};
ghost use Rattle.map_rules.specs.declared.dmr.Dmr.{Dmr as DmrType};
ghost use Rattle.setup_tables.specs.Answer.{Gives, each};
ghost use Rattle.mapt_setup.specs.Shapes.{HasParts, BreaksShape, book_of};
ghost use Rattle.mapt_setup.specs.Setup.{first_book};

use map_rules::{Dmr, Rule};
use rule_book::{Book, BookFault};
use setup_tables::{Given, RuleLine, SetupCause, SetupFault};
use std::alloc::Global;

/// The rule of these parts, or `None` where they break a shape rule.
pub(crate) fn rule_of(line: &RuleLine) -> Option<Rule>
    ensures found { IfSome result (HasParts line.now) }
    ensures none { IfNone result (BreaksShape line.now) }
{
    Rule::new(
        line.prefix6,
        line.prefix4,
        line.ea,
        line.offset,
        line.forward,
    )
    .ok()
}

/// The rules of these parts, or the first that breaks a shape rule.
fn shaped(alloc: Global, lines: &[RuleLine]) -> Result<Vec<Rule>, SetupFault>
    requires { length lines.now ≤ 256 }
    ensures { Gives (λ rules. rules.items) result (each SetupCause.RuleShape HasParts BreaksShape lines.now) }
{
    let mut rules = Vec::new(alloc);
    for (i, line) in lines.iter().enumerate() {
        let Some(rule) = rule_of(line) else {
            return Err(SetupFault::Refused(SetupCause::RuleShape, i as u32));
        };
        rules.push(rule)?;
    }
    Ok(rules)
}

/// The book of generation 0 with these rules, or why they are none.
fn book(alloc: Global, rules: &[Rule], dmr: Dmr) -> Result<Book, SetupFault>
    ensures { Gives (λ made. made) result (book_of rules.now dmr) }
{
    let fault = match Book::start(alloc, rules, dmr) {
        Ok(made) => return Ok(made),
        Err(fault) => fault,
    };
    Err(match fault {
        BookFault::TooManyRules => SetupFault::Refused(SetupCause::TooMany, 0),
        BookFault::Overlap4(_, later) => SetupFault::Refused(SetupCause::Overlap4, later),
        BookFault::Overlap6(_, later) => SetupFault::Refused(SetupCause::Overlap6, later),
        BookFault::OverlapDmr(rule) => SetupFault::Refused(SetupCause::OverlapDmr, rule),
        BookFault::NoMemory => SetupFault::NoMemory,
        BookFault::NoSuchRule | BookFault::RuleThere(_) => unreachable!("faults of changes alone"),
    })
}

/// The book of generation 0 by the default mapping rule and the lines of the rules.
pub(crate) fn first_book(alloc: Global, given: &Given) -> Result<Book, SetupFault>
    requires { length given.now.lines ≤ 256 }
    ensures { Gives (λ made. made) result (first_book given.now) }
{
    let rules = shaped(alloc, given.lines.as_slice())?;
    book(alloc, &rules, given.dmr)
}
