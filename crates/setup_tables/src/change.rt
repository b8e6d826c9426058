ghost use Rattle.std.specs.Prelude.{◌≡◌, ◌≤◌, map, length, Some, IfSome, IfNone, IfOk};
ghost use Rattle.toml.specs.View.{view, table_view};
ghost use Rattle.setup_tables.specs.Answer.{Gives, HasNone, each};
ghost use Rattle.setup_tables.specs.Change.{verb_of, verb_at, HasRule, HasAction, IsChange};

use crate::keys::{flag_or, has_only, long_at, text_at, value_at};
use crate::rule::RuleLine;
use crate::spelled::prefix6_at;
use crate::{SetupCause, SetupFault};
use octets::{List, Prefix6};
use std::alloc::Global;
use toml::{Table, Value};

/// The keys of a `[[change]]` that adds a rule.
const ADD_KEYS: [&str; 4] = ["at", "action", "live", "rule"];

/// Those of one that removes a rule.
const REMOVE_KEYS: [&str; 4] = ["at", "action", "live", "prefix6"];

/// Those of one that puts a rule for another.
const REPLACE_KEYS: [&str; 5] = ["at", "action", "live", "prefix6", "rule"];

/// The greatest time of a change, in microseconds.
const MOST_AT: u64 = (1 << 52) - 1;

/// What a word says to do.
#[derive(Clone, Copy, Debug)]
pub(crate) enum Verb {
    Add,
    Remove,
    Replace,
}

/// What a `[[change]]` says to do, whatever the shape of its rule.
#[derive(Clone, Copy, Debug)]
pub enum Action {
    /// Adds this rule.
    Add(RuleLine),
    /// Removes the rule with this IPv6 prefix.
    Remove(Prefix6),
    /// Puts this rule for the one with this IPv6 prefix.
    Replace(Prefix6, RuleLine),
}

/// What a `[[change]]` says.
#[derive(Clone, Copy, Debug)]
pub struct ChangeText {
    /// When, in microseconds.
    pub at: u64,
    /// Whether it is made while packets are worked on.
    pub live: bool,
    /// What is done to the rules.
    pub action: Action,
}

/// Texts of changes in their order.
pub type ChangeTexts = List<ChangeText>;

/// What a word says to do.
fn verb_of(word: &str) -> Option<Verb>
    ensures { result ≡ verb_of word.now }
{
    if word == "add" {
        return Some(Verb::Add);
    }
    if word == "remove" {
        return Some(Verb::Remove);
    }
    if word == "replace" {
        return Some(Verb::Replace);
    }
    None
}

/// What the word at `action` says to do.
fn verb_at(table: &Table) -> Option<Verb>
    ensures { result ≡ verb_at (table_view table.now) }
{
    verb_of(text_at(table, "action")?)
}

/// The rule at `rule`.
fn rule_at(table: &Table) -> Option<RuleLine>
    ensures found { IfSome result (HasRule (table_view table.now)) }
    ensures none { IfNone result (HasNone HasRule (table_view table.now)) }
{
    RuleLine::of(value_at(table, "rule")?)
}

impl Action {
    /// What a table whose word is `add` says to do, or `None` where a key isn't as it should be.
    fn adding(table: &Table) -> Option<Action>
        requires { verb_at (table_view table.now) ≡ Some Verb.Add }
        ensures found { IfSome result (HasAction (table_view table.now)) }
        ensures none { IfNone result (HasNone HasAction (table_view table.now)) }
    {
        if !has_only(table, &ADD_KEYS) {
            return None;
        }
        Some(Action::Add(rule_at(table)?))
    }

    /// What a table whose word is `remove` says to do.
    fn removing(table: &Table) -> Option<Action>
        requires { verb_at (table_view table.now) ≡ Some Verb.Remove }
        ensures found { IfSome result (HasAction (table_view table.now)) }
        ensures none { IfNone result (HasNone HasAction (table_view table.now)) }
    {
        if !has_only(table, &REMOVE_KEYS) {
            return None;
        }
        Some(Action::Remove(prefix6_at(table, "prefix6")?))
    }

    /// What a table whose word is `replace` says to do.
    fn replacing(table: &Table) -> Option<Action>
        requires { verb_at (table_view table.now) ≡ Some Verb.Replace }
        ensures found { IfSome result (HasAction (table_view table.now)) }
        ensures none { IfNone result (HasNone HasAction (table_view table.now)) }
    {
        if !has_only(table, &REPLACE_KEYS) {
            return None;
        }
        let prefix = prefix6_at(table, "prefix6")?;
        Some(Action::Replace(prefix, rule_at(table)?))
    }

    /// What a table says to do, or `None` where a key isn't as it should be.
    fn of(table: &Table) -> Option<Action>
        ensures found { IfSome result (HasAction (table_view table.now)) }
        ensures none { IfNone result (HasNone HasAction (table_view table.now)) }
    {
        match verb_at(table)? {
            Verb::Add => Action::adding(table),
            Verb::Remove => Action::removing(table),
            Verb::Replace => Action::replacing(table),
        }
    }
}

impl ChangeText {
    /// What a table says, or `None` where a key isn't as it should be.
    fn of(value: &Value) -> Option<ChangeText>
        ensures found { IfSome result (IsChange (view value.now)) }
        ensures none { IfNone result (HasNone IsChange (view value.now)) }
    {
        let table = value.as_table()?;
        Some(ChangeText {
            at: long_at(table, "at", MOST_AT)?,
            live: flag_or(false, table, "live")?,
            action: Action::of(table)?,
        })
    }
}

/// What each table says, or the first where a key isn't as it should be.
pub(crate) fn read_changes(alloc: Global, values: &[Value]) -> Result<ChangeTexts, SetupFault>
    requires { length values.now ≤ 64 }
    ensures few { IfOk result (λ texts. length texts ≤ 64) }
    ensures exact { Gives (λ texts. texts) result (each SetupCause.BadChange IsChange (HasNone IsChange) (map view values.now)) }
{
    let mut texts = ChangeTexts::new(alloc);
    for (i, value) in values.iter().enumerate() {
        let Some(text) = ChangeText::of(value) else {
            return Err(SetupFault::Refused(SetupCause::BadChange, i as u32));
        };
        texts.push(text)?;
    }
    Ok(texts)
}
