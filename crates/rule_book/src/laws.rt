ghost use Rattle.std.specs.Prelude.{◌≡◌, ℕ, ◌<◌, ◌↔◌, List, [], IsTrue, length, codes, slice_index_or, Some, None};
ghost use Rattle.std.specs.List.{All};
ghost use Rattle.octets.specs.declared.prefix.Prefix6.{Prefix6 as Prefix};
ghost use Rattle.rule_book.specs.declared.change.Change.{Change};
ghost use Rattle.rule_book.specs.declared.change.Change.TheVariants.{Add};
ghost use Rattle.rule_book.specs.Change.{same6, same_rule, place_of, rules_after, change_refusal};
ghost use Rattle.rule_book.specs.Text.{has_own, edge_name};
ghost use Rattle.octets.specs.Place.{IsFirstPlace};
ghost use Rattle.map_rules.specs.declared.rule.Rule.{Rule};
ghost use Rattle.map_rules.specs.declared.dmr.Dmr.{Dmr};
ghost use Rattle.rule_book.specs.declared.fault.BookFault.TheVariants.{RuleThere, Overlap4, Overlap6, OverlapDmr};
ghost use Rattle.rule_book.specs.Valid.{IsValid, clash4, clash6, clash_dmr};
ghost use Rattle.rule_book.specs.Refusal.{refusal_of};
ghost use Rattle.rule_book.specs.Least.{IsLeastPair};

/// Law: rules are refused exactly where they aren't valid with the default mapping rule, and the places that
/// a refusal names are the least that show it.
pub fn refusals_name_the_least()
    ensures valid { (rules : List Rule) (dmr : Dmr) → refusal_of rules dmr ≡ None ↔ IsValid rules dmr }
    ensures overlap4 { (rules : List Rule) (dmr : Dmr) (i j : ℕ)
        → refusal_of rules dmr ≡ Some (Overlap4 i j)
        → IsLeastPair clash4 rules i j }
    ensures overlap6 { (rules : List Rule) (dmr : Dmr) (i j : ℕ)
        → refusal_of rules dmr ≡ Some (Overlap6 i j)
        → IsLeastPair clash6 rules i j }
    ensures overlap_dmr { (rules : List Rule) (dmr : Dmr) (i : ℕ)
        → refusal_of rules dmr ≡ Some (OverlapDmr i)
        → IsFirstPlace (clash_dmr dmr) rules i }
{}

/// Law: a change is refused by the least places too: the first rule that equals an added one, the least
/// pair of rules that overlap after the change, or the first that overlaps the default mapping rule. The
/// rule that is removed or replaced is the first with the IPv6 prefix.
pub fn refused_changes_name_the_least()
    ensures place { (prefix : Prefix) (rules : List Rule) (i : ℕ)
        → (place_of prefix rules ≡ Some i) ↔ IsFirstPlace (λ rule. same6 rule.prefix6 prefix) rules i }
    ensures there { (added : Rule) (rules : List Rule) (dmr : Dmr) (i : ℕ)
        → change_refusal (Add added) rules dmr ≡ Some (RuleThere i)
        → IsFirstPlace (λ rule. same_rule rule added) rules i }
    ensures overlap4 { (change : Change) (rules : List Rule) (dmr : Dmr) (i j : ℕ)
        → change_refusal change rules dmr ≡ Some (Overlap4 i j)
        → IsLeastPair clash4 (rules_after change rules) i j }
    ensures overlap6 { (change : Change) (rules : List Rule) (dmr : Dmr) (i j : ℕ)
        → change_refusal change rules dmr ≡ Some (Overlap6 i j)
        → IsLeastPair clash6 (rules_after change rules) i j }
    ensures overlap_dmr { (change : Change) (rules : List Rule) (dmr : Dmr) (i : ℕ)
        → change_refusal change rules dmr ≡ Some (OverlapDmr i)
        → IsFirstPlace (clash_dmr dmr) (rules_after change rules) i }
{}

/// Law: an edge's name is the one at the place of the first prefix whose edge has the own address, and `-`
/// where no edge has it.
pub fn an_edge_is_named_by_the_first_prefix()
    ensures first { (rules : List Rule) (prefixes : List Prefix) (names : List (List ℕ)) (own i : ℕ)
        → length prefixes ≡ length names
        → IsFirstPlace (has_own rules own) prefixes i
        → edge_name rules prefixes names own ≡ slice_index_or names i [] }
    ensures none { (rules : List Rule) (prefixes : List Prefix) (names : List (List ℕ)) (own : ℕ)
        → All (λ prefix. ¬ IsTrue (has_own rules own prefix)) prefixes
        → edge_name rules prefixes names own ≡ codes "-" }
{}
