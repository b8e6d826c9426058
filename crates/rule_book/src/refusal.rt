ghost use Rattle.std.specs.Prelude.{◌≡◌, ◌≤◌, ◌<◌, length, IfSome};
ghost use Rattle.std.specs.List.{position};
ghost use Rattle.rule_book.specs.Valid.{clash4, clash6, clash_dmr};
ghost use Rattle.rule_book.specs.Refusal.{first_pair, overlap_of, refusal_of};

use crate::BookFault;
use crate::overlap::{overlaps4, overlaps6};
use map_rules::{Dmr, Rule};

/// The most rules of a generation.
pub(crate) const MOST_RULES: usize = 256;

/// Why these rules are no book, if they aren't.
pub(crate) fn refusal(rules: &[Rule], dmr: &Dmr) -> Option<BookFault>
    ensures { result ≡ refusal_of rules.now dmr.now }
{
    if rules.len() > MOST_RULES {
        return Some(BookFault::TooManyRules);
    }
    overlap(rules, dmr)
}

/// The first reason for which the rules overlap, if they do.
pub(crate) fn overlap(rules: &[Rule], dmr: &Dmr) -> Option<BookFault>
    requires { length rules.now ≤ 256 }
    ensures { result ≡ overlap_of rules.now dmr.now }
{
    if let Some((earlier, later)) = first_pair4(rules) {
        return Some(BookFault::Overlap4(earlier as u32, later as u32));
    }
    if let Some((earlier, later)) = first_pair6(rules) {
        return Some(BookFault::Overlap6(earlier as u32, later as u32));
    }
    let at = first_in_dmr(rules, dmr)?;
    Some(BookFault::OverlapDmr(at as u32))
}

/// The least pair of rules whose IPv4 prefixes overlap.
fn first_pair4(rules: &[Rule]) -> Option<(usize, usize)>
    ensures pair { result ≡ first_pair clash4 rules.now }
    ensures places { IfSome result (λ p. (p.0 < p.1) × (p.1 < length rules.now)) }
{
    for later in 0..rules.len() {
        if let Some(earlier) = first_clash4(&rules[..later], &rules[later]) {
            return Some((earlier, later));
        }
    }
    None
}

/// The first rule whose IPv4 prefix overlaps this one's.
fn first_clash4(rules: &[Rule], later: &Rule) -> Option<usize>
    ensures clash { result ≡ position (λ rule. clash4 rule later.now) rules.now }
    ensures place { IfSome result (λ i. i < length rules.now) }
{
    rules
        .iter()
        .position(|rule| overlaps4(&rule.prefix4, &later.prefix4))
}

/// The least pair of rules whose IPv6 prefixes overlap.
fn first_pair6(rules: &[Rule]) -> Option<(usize, usize)>
    ensures pair { result ≡ first_pair clash6 rules.now }
    ensures places { IfSome result (λ p. (p.0 < p.1) × (p.1 < length rules.now)) }
{
    for later in 0..rules.len() {
        if let Some(earlier) = first_clash6(&rules[..later], &rules[later]) {
            return Some((earlier, later));
        }
    }
    None
}

/// The first rule whose IPv6 prefix overlaps this one's.
fn first_clash6(rules: &[Rule], later: &Rule) -> Option<usize>
    ensures clash { result ≡ position (λ rule. clash6 rule later.now) rules.now }
    ensures place { IfSome result (λ i. i < length rules.now) }
{
    rules
        .iter()
        .position(|rule| overlaps6(&rule.prefix6, &later.prefix6))
}

/// The first rule whose IPv6 prefix overlaps that of the default mapping rule.
fn first_in_dmr(rules: &[Rule], dmr: &Dmr) -> Option<usize>
    ensures clash { result ≡ position (clash_dmr dmr.now) rules.now }
    ensures place { IfSome result (λ i. i < length rules.now) }
{
    rules
        .iter()
        .position(|rule| overlaps6(&rule.prefix6, &dmr.prefix))
}
