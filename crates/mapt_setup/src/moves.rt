ghost use Rattle.std.specs.Prelude.{◌≡◌, ◌<◌, ◌≤◌, ◌+◌, ◌-◌, ◌^◌, ◌⊎◌, None, IsSome, length, IfSome, IfNone, IfOk, IfErr, OnOk, OnErr};
ghost use Rattle.rule_book.specs.Book.{rules_of, dmr_of, generation_of};
ghost use Rattle.rule_book.specs.Change.{rules_after, change_refusal};
ghost use Rattle.setup_tables.specs.Answer.{Gives, HasNone};
ghost use Rattle.mapt_setup.specs.Beside.{first_after};
ghost use Rattle.mapt_setup.specs.Generation.{rules_after_all};
ghost use Rattle.mapt_setup.specs.Valid.{AreAccepted};
ghost use Rattle.mapt_setup.specs.Moves.{is_early, order_fault, HasChange, moves_from, changes_of};

use crate::shapes::rule_of;
use octets::List;
use rule_book::{Book, BookFault, Change};
use setup_tables::{Action, ChangeText, SetupCause, SetupFault};
use std::alloc::Global;

/// A change of the rules in a configuration.
#[derive(Clone, Copy, Debug, PartialEq, Eq)]
pub struct MoveLine {
    /// When, in microseconds.
    pub at: u64,
    /// Whether it is made while packets are worked on. One that isn't live waits for all workers.
    pub live: bool,
    pub change: Change,
}

/// Changes in their order.
pub type Changes = List<MoveLine>;

/// Whether a change comes before the one that is listed before it.
fn is_early(earlier: &[ChangeText], text: &ChangeText) -> bool
    ensures { result ≡ is_early earlier.now text.now }
{
    match earlier.last() {
        Some(before) => text.at < before.at,
        None => false,
    }
}

/// The first change that does.
fn first_early(texts: &[ChangeText]) -> Option<usize>
    ensures place { result ≡ first_after is_early texts.now }
    ensures within { IfSome result (λ i. i < length texts.now) }
{
    for i in 0..texts.len() {
        if is_early(&texts[..i], &texts[i]) {
            return Some(i);
        }
    }
    None
}

/// The fault of changes that aren't in the order of their times.
fn order_fault(texts: &[ChangeText]) -> Option<SetupFault>
    requires { length texts.now ≤ 64 }
    ensures { result ≡ order_fault texts.now }
{
    let i = first_early(texts)?;
    Some(SetupFault::Refused(SetupCause::ChangeOrder, i as u32))
}

/// The change that an action names, or `None` where its rule breaks a shape rule.
fn change_of(action: &Action) -> Option<Change>
    ensures found { IfSome result (HasChange action.now) }
    ensures none { IfNone result (HasNone HasChange action.now) }
{
    match action {
        Action::Add(line) => Some(Change::Add(rule_of(line)?)),
        Action::Remove(prefix) => Some(Change::Remove(*prefix)),
        Action::Replace(prefix, line) => Some(Change::Replace(*prefix, rule_of(line)?)),
    }
}

/// The book after a change, or why there is none: the rules refuse it, and then it is refused at this place.
fn book_after(alloc: Global, book: &Book, change: &Change, place: u32) -> Result<Book, SetupFault>
    requires { generation_of book.now < 2 ^ 32 - 1 }
    ensures accepted { OnOk result (change_refusal change.now (rules_of book.now) (dmr_of book.now) ≡ None) }
    ensures refused { IfErr result (λ e. (e ≡ SetupFault.NoMemory)
        ⊎ ((e ≡ SetupFault.Refused SetupCause.ChangeRefused place)
        × IsSome (change_refusal change.now (rules_of book.now) (dmr_of book.now)))) }
    ensures rules { IfOk result (λ after. rules_of after ≡ rules_after change.now (rules_of book.now)) }
    ensures dmr { IfOk result (λ after. dmr_of after ≡ dmr_of book.now) }
    ensures generation { IfOk result (λ after. generation_of after ≡ generation_of book.now + 1) }
{
    match book.changed(alloc, change) {
        Ok(after) => Ok(after),
        Err(BookFault::NoMemory) => Err(SetupFault::NoMemory),
        Err(_) => Err(SetupFault::Refused(SetupCause::ChangeRefused, place)),
    }
}

/// The changes of these texts, each by the rules after those before it, or the first that is refused.
fn moved(alloc: Global, book: &Book, texts: &[ChangeText]) -> Result<Changes, SetupFault>
    requires first { generation_of book.now ≡ 0 }
    requires few { length texts.now ≤ 64 }
    ensures { Gives (λ changes. changes) result (moves_from 0 (dmr_of book.now) (rules_of book.now) texts.now) }
{
    let mut changes = Changes::new(alloc);
    let mut last = book.copy(alloc)?;
    for (i, text) in texts.iter().enumerate() {
        let Some(change) = change_of(&text.action) else {
            return Err(SetupFault::Refused(SetupCause::ChangeRefused, i as u32));
        };
        let next = book_after(alloc, &last, &change, i as u32)?;
        changes.push(MoveLine {
            at: text.at,
            live: text.live,
            change,
        })?;
        last = next;
    }
    Ok(changes)
}

/// The changes of these texts over a book of generation 0, or the first thing that is wrong with them.
pub(crate) fn changes_of(
    alloc: Global,
    book: &Book,
    texts: &[ChangeText],
) -> Result<Changes, SetupFault>
    requires first { generation_of book.now ≡ 0 }
    requires few { length texts.now ≤ 64 }
    ensures { Gives (λ changes. changes) result (changes_of (dmr_of book.now) (rules_of book.now) texts.now) }
{
    if let Some(fault) = order_fault(texts) {
        return Err(fault);
    }
    moved(alloc, book, texts)
}

/// The book of generation 0 after these changes, which are accepted one after the other.
pub(crate) fn book_after_all(
    alloc: Global,
    book: &Book,
    changes: &[MoveLine],
) -> Result<Book, SetupFault>
    requires first { generation_of book.now ≡ 0 }
    requires few { length changes.now ≤ 64 }
    requires accepted { AreAccepted (dmr_of book.now) (rules_of book.now) changes.now }
    ensures memory { IfErr result (λ e. e ≡ SetupFault.NoMemory) }
    ensures rules { IfOk result (λ after. rules_of after ≡ rules_after_all changes.now (rules_of book.now)) }
    ensures dmr { IfOk result (λ after. dmr_of after ≡ dmr_of book.now) }
    ensures generation { IfOk result (λ after. generation_of after ≡ length changes.now) }
{
    let mut last = book.copy(alloc)?;
    for (i, change) in changes.iter().enumerate() {
        let next = book_after(alloc, &last, &change.change, i as u32)?;
        last = next;
    }
    Ok(last)
}
