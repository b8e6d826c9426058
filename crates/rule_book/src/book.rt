ghost use Rattle.std.specs.Prelude.{◌≡◌, ◌<◌, ◌+◌, ◌-◌, ◌^◌, ◌⊎◌, Some, None, OnOk, IfOk, IfErr};
ghost use Rattle.rule_book.specs.Valid.{IsValid};
ghost use Rattle.rule_book.specs.Refusal.{refusal_of};

use crate::change::{Rules, misfit, rules_after};
use crate::lines::text_of;
use crate::refusal::{overlap, refusal};
use crate::scan::{covers4, edge_of, far4, forward, owner};
use crate::{BookFault, Change, FarOf, RuleView};
use map_rules::{Dmr, EdgeId, Rule};
use octets::{Addr4, Addr6, Bytes, NoMemory, Prefix6};
use std::alloc::Global;

/// The rules of one generation and the default mapping rule. The rules are valid: at most 256, their IPv4
/// prefixes pairwise disjoint, their IPv6 prefixes pairwise disjoint, and none of these overlapping that of
/// the default mapping rule.
#[derive(Debug, Drop)]
pub struct Book {
    rules: Rules,
    dmr: Dmr,
    generation: u32,
    pub ghost valid: { IsValid rules dmr },
}

impl Book {
    ghost use Rattle.rule_book.specs.Change.{rules_after, change_refusal};
    ghost use Rattle.rule_book.specs.Text.{book_text};
    ghost use Rattle.rule_book.specs.Book.{rules_of, dmr_of, generation_of};

    /// The book of generation 0 with these rules and this default mapping rule. Refused with the first of
    /// the faults that the rules show, in the order of `BookFault`.
    pub fn start(alloc: Global, rules: &[Rule], dmr: Dmr) -> Result<Book, BookFault>
        ensures accepted { OnOk result (refusal_of rules.now dmr ≡ None) }
        ensures refused { IfErr result
            (λ e. (refusal_of rules.now dmr ≡ Some e) ⊎ (e ≡ BookFault.NoMemory)) }
        ensures rules { IfOk result (λ book. rules_of book ≡ rules.now) }
        ensures dmr { IfOk result (λ book. dmr_of book ≡ dmr) }
        ensures generation { IfOk result (λ book. generation_of book ≡ 0) }
    {
        if let Some(fault) = refusal(rules, &dmr) {
            return Err(fault);
        }
        Ok(Book {
            rules: Rules::of(alloc, rules)?,
            dmr,
            generation: 0,
        })
    }

    /// The book of the next generation, with the rules after the change. Refused with the first of the faults
    /// that the change shows, in the order of `BookFault`; places of overlaps are those of the rules after
    /// the change.
    pub fn changed(&self, alloc: Global, change: &Change) -> Result<Book, BookFault>
        requires { generation_of self.now < 2 ^ 32 - 1 }
        ensures accepted { OnOk result
            (change_refusal change.now (rules_of self.now) (dmr_of self.now) ≡ None) }
        ensures refused { IfErr result
            (λ e. (change_refusal change.now (rules_of self.now) (dmr_of self.now) ≡ Some e) ⊎ (e ≡ BookFault.NoMemory)) }
        ensures rules { IfOk result (λ book. rules_of book ≡ rules_after change.now (rules_of self.now)) }
        ensures dmr { IfOk result (λ book. dmr_of book ≡ dmr_of self.now) }
        ensures generation { IfOk result (λ book. generation_of book ≡ generation_of self.now + 1) }
    {
        if let Some(fault) = misfit(self.rules.as_slice(), change) {
            return Err(fault);
        }
        let rules = rules_after(alloc, self.rules.as_slice(), change)?;
        if let Some(fault) = overlap(rules.as_slice(), &self.dmr) {
            return Err(fault);
        }
        Ok(Book {
            rules,
            dmr: self.dmr,
            generation: self.generation + 1,
        })
    }

    /// The same book once more.
    pub fn copy(&self, alloc: Global) -> Result<Book, NoMemory>
        ensures { IfOk result (λ copied. copied ≡ self.now) }
    {
        Ok(Book {
            rules: Rules::of(alloc, self.rules.as_slice())?,
            dmr: self.dmr,
            generation: self.generation,
        })
    }

    /// The book with the view's generation, rules and default mapping rule.
    pub fn of_view<V: RuleView>(alloc: Global, view: &V) -> Result<Book, NoMemory>
        ensures rules { IfOk result (λ book. rules_of book ≡ V.rules view.now) }
        ensures dmr { IfOk result (λ book. dmr_of book ≡ V.default_rule view.now) }
        ensures generation { IfOk result (λ book. generation_of book ≡ V.number view.now) }
    {
        let mut rules = Rules::new(alloc);
        for i in 0..view.count() {
            if let Some(rule) = view.rule(i) {
                rules.push(rule)?;
            }
        }
        Ok(Book {
            rules,
            dmr: view.dmr(),
            generation: view.generation(),
        })
    }

    /// The book as text: a line for the default mapping rule, `dmr` and its prefix, and then one line a rule in
    /// their order, `rule`, its IPv6 and IPv4 prefixes, `ea` and the number of EA bits, `offset` and the PSID
    /// offset, `forward` and 0 or 1. Each line ends with a newline.
    pub fn text(&self, alloc: Global) -> Result<Bytes, NoMemory>
        ensures { IfOk result (λ text. text ≡ book_text (rules_of self.now) (dmr_of self.now)) }
    {
        text_of(alloc, self.rules.as_slice(), &self.dmr)
    }
}

impl RuleView for Book {
    ghost rules = { λ book. book.rules };

    ghost default_rule = { λ book. book.dmr };

    ghost number = { λ book. book.generation };

    fn generation(&self) -> u32 {
        self.generation
    }

    fn dmr(&self) -> Dmr {
        self.dmr
    }

    fn count(&self) -> u32 {
        self.rules.as_slice().len() as u32
    }

    fn rule(&self, i: u32) -> Option<Rule> {
        self.rules.as_slice().get(i as usize).copied()
    }

    fn edge_of(&self, p: Prefix6) -> Option<EdgeId> {
        edge_of(self.rules.as_slice(), p)
    }

    fn owner(&self, addr: Addr4, port: u16) -> Option<Addr6> {
        owner(self.rules.as_slice(), addr, port)
    }

    fn forward(&self, addr: Addr4, port: u16) -> Option<Addr6> {
        forward(self.rules.as_slice(), addr, port)
    }

    fn covers4(&self, addr: Addr4) -> bool {
        covers4(self.rules.as_slice(), addr)
    }

    fn far4(&self, s: Addr6, port: u16) -> FarOf {
        far4(self.rules.as_slice(), &self.dmr, s, port)
    }

    ghost valid = { λ book. book.valid };
}
