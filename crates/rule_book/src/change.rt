ghost use Rattle.std.specs.Prelude.{◌≡◌, ◌<◌, ◌≤◌, length, IfNone, IfSome, IfOk};
ghost use Rattle.std.specs.List.{position};
ghost use Rattle.rule_book.specs.Change.{same4, same6, same_rule, place_of, missing_of, misfit_of, rules_after};

use crate::BookFault;
use crate::refusal::MOST_RULES;
use map_rules::Rule;
use octets::{List, NoMemory, Prefix4, Prefix6};
use std::alloc::Global;

/// Mapping rules in their order.
pub(crate) type Rules = List<Rule>;

/// One change of the rules.
#[derive(Clone, Copy, Debug, PartialEq, Eq, Hash)]
pub enum Change {
    /// Adds a rule, which goes last.
    Add(Rule),
    /// Removes the rule with this IPv6 prefix.
    Remove(Prefix6),
    /// Puts a rule in the place of the one with this IPv6 prefix.
    Replace(Prefix6, Rule),
}

/// Why the change is refused before prefixes are compared, if it is: it would make a rule too many, it names
/// an IPv6 prefix that no rule has, or it adds a rule that stands already.
pub(crate) fn misfit(rules: &[Rule], change: &Change) -> Option<BookFault>
    requires { length rules.now ≤ 256 }
    ensures fault { result ≡ misfit_of change.now rules.now }
    ensures few { IfNone result (length (rules_after change.now rules.now) ≤ 256) }
{
    match change {
        Change::Add(rule) => add_misfit(rules, rule),
        Change::Remove(prefix) => missing(rules, prefix),
        Change::Replace(prefix, _) => missing(rules, prefix),
    }
}

/// Why this rule can't be added, its prefixes aside.
fn add_misfit(rules: &[Rule], rule: &Rule) -> Option<BookFault>
    requires { length rules.now ≤ 256 }
    ensures fault { result ≡ misfit_of (Change.Add rule.now) rules.now }
    ensures few { IfNone result (length rules.now < 256) }
{
    if rules.len() == MOST_RULES {
        return Some(BookFault::TooManyRules);
    }
    let at = place_of_rule(rules, rule)?;
    Some(BookFault::RuleThere(at as u32))
}

/// `NoSuchRule`, where no rule has this IPv6 prefix.
fn missing(rules: &[Rule], prefix: &Prefix6) -> Option<BookFault>
    ensures { result ≡ missing_of prefix.now rules.now }
{
    match place_of(rules, prefix) {
        Some(_) => None,
        None => Some(BookFault::NoSuchRule),
    }
}

/// The rules after the change.
pub(crate) fn rules_after(alloc: Global, rules: &[Rule], change: &Change) -> Result<Rules, NoMemory>
    ensures { IfOk result (λ after. after ≡ rules_after change.now rules.now) }
{
    let mut after = Rules::of(alloc, rules)?;
    match change {
        Change::Add(rule) => after.push(*rule)?,
        Change::Remove(prefix) => {
            if let Some(at) = place_of(rules, prefix) {
                after.remove(at);
            }
        }
        Change::Replace(prefix, rule) => {
            if let Some(at) = place_of(rules, prefix) {
                after.set(at, *rule);
            }
        }
    }
    Ok(after)
}

/// The place of the rule with this IPv6 prefix.
fn place_of(rules: &[Rule], prefix: &Prefix6) -> Option<usize>
    ensures place { result ≡ place_of prefix.now rules.now }
    ensures within { IfSome result (λ at. at < length rules.now) }
{
    rules
        .iter()
        .position(|rule| is_prefix6(&rule.prefix6, prefix))
}

/// The place of the first rule that is equal to this one.
fn place_of_rule(rules: &[Rule], rule: &Rule) -> Option<usize>
    ensures place { result ≡ position (λ r. same_rule r rule.now) rules.now }
    ensures within { IfSome result (λ at. at < length rules.now) }
{
    rules.iter().position(|other| is_rule(other, rule))
}

/// Whether the two are equal.
fn is_prefix6(prefix: &Prefix6, other: &Prefix6) -> bool
    ensures { result ≡ same6 prefix.now other.now }
{
    prefix.bits == other.bits && prefix.len == other.len
}

/// Whether the two are equal.
fn is_prefix4(prefix: &Prefix4, other: &Prefix4) -> bool
    ensures { result ≡ same4 prefix.now other.now }
{
    prefix.bits == other.bits && prefix.len == other.len
}

/// Whether the two are equal.
fn is_rule(rule: &Rule, other: &Rule) -> bool
    ensures { result ≡ same_rule rule.now other.now }
{
    is_prefix6(&rule.prefix6, &other.prefix6)
        && is_prefix4(&rule.prefix4, &other.prefix4)
        && rule.ea == other.ea
        && rule.offset == other.offset
        && rule.forward == other.forward
}
