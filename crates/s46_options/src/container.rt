ghost use Rattle.std.specs.Prelude.{◌≡◌, ◌+◌, ◌-◌, ◌^◌, ◌↔◌, true, List, length, map, min, IsSome, IfSome};
ghost use Rattle.std.specs.List.{list_all, count_by};
ghost use Rattle.s46_options.specs.Items.{item_option, sub_option, inside_octets};
ghost use Rattle.s46_options.specs.Options.{spelled, spelled_all};
ghost use Rattle.s46_options.specs.Accepted.{is_params, is_rule, is_dmr, sub_fits, item_fits};

use crate::codes::{DMR, HEAD_LEN, MOST_OCTETS, PARAMS, RULE};
use crate::prefixes::octets_for;
use crate::{Item, Sub};
use std::marker::Model;

/// The bounds of the numbers.
const MOST_EA: u8 = 48;

const MOST_OFFSET: u8 = 15;

const MOST_PSID_LEN: u8 = 16;

/// The most rules of a container.
const MOST_RULES: usize = 256;

/// S46_CONT_MAPT (RFC 7598, section 5.2): 1 to 256 rules, exactly one default mapping rule, and any other
/// options, in their order. No number is over its bound, a rule has port parameters once at most, the code of
/// another option isn't one that is known in its place, and at most 65,535 octets stand inside. A contract
/// sees the list of the items.
#[derive(Debug, Drop)]
pub struct Container {
    items: Vec<Item>,
}

impl Model for Container {
    ghost use Rattle.std.specs.Prelude.{◌≡◌, List, true};
    ghost use Rattle.s46_options.specs.declared.item.Item.{Item as ItemType};
    ghost use Rattle.s46_options.specs.Accepted.{is_accepted};

    ghost Value = { List ItemType };

    ghost view = { λ c. c.items.items };

    ghost invariant = { λ c. is_accepted c.items.items ≡ true };
}

impl Sub {
    /// Whether these are port parameters.
    fn is_params(&self) -> bool
        ensures { result ≡ is_params self.now }
    {
        matches!(self, Sub::Params { .. })
    }

    /// Whether no number is over its bound, and the code of another option isn't that of port parameters.
    fn fits(&self) -> bool
        ensures { result ≡ sub_fits self.now }
    {
        match self {
            Sub::Params {
                offset,
                psid_len,
                psid,
            } => {
                *offset <= MOST_OFFSET
                    && *psid_len <= MOST_PSID_LEN
                    && u32::from(*psid) < 1 << *psid_len
            }
            Sub::Other(code, _) => *code != PARAMS,
        }
    }

    /// The octets of the option, as far as a number of 64 bits counts them.
    fn size(&self) -> usize
        ensures { result ≡ min (length (spelled (sub_option self.now))) (2 ^ 64 - 1) }
    {
        match self {
            Sub::Params { .. } => HEAD_LEN + 4,
            Sub::Other(_, octets) => octets.as_slice().len().saturating_add(HEAD_LEN),
        }
    }
}

impl Item {
    fn is_rule(&self) -> bool
        ensures { result ≡ is_rule self.now }
    {
        matches!(self, Item::Rule { .. })
    }

    fn is_dmr(&self) -> bool
        ensures { result ≡ is_dmr self.now }
    {
        matches!(self, Item::Dmr(_))
    }

    /// Whether no number is over its bound, a rule has port parameters once at most, and the code of another
    /// option isn't that of a rule or of the default mapping rule.
    fn fits(&self) -> bool
        ensures { result ≡ item_fits self.now }
    {
        match self {
            Item::Rule { ea, subs, .. } => {
                *ea <= MOST_EA && all_fit(subs.as_slice()) && params_count(subs.as_slice()) <= 1
            }
            Item::Dmr(_) => true,
            Item::Other(code, _) => *code != RULE && *code != DMR,
        }
    }

    /// The octets of the option, as far as a number of 64 bits counts them.
    fn size(&self) -> usize
        ensures { result ≡ min (length (spelled (item_option self.now))) (2 ^ 64 - 1) }
    {
        match self {
            Item::Rule { prefix6, subs, .. } => {
                sizes_of(subs.as_slice()).saturating_add(HEAD_LEN + 8 + octets_for(prefix6.len))
            }
            Item::Dmr(prefix) => HEAD_LEN + 1 + octets_for(prefix.len),
            Item::Other(_, octets) => octets.as_slice().len().saturating_add(HEAD_LEN),
        }
    }
}

fn all_fit(subs: &[Sub]) -> bool
    ensures { result ≡ list_all sub_fits subs.now }
{
    subs.iter().all(|sub| sub.fits())
}

fn params_count(subs: &[Sub]) -> usize
    ensures { result ≡ count_by is_params subs.now }
{
    subs.iter().filter(|sub| sub.is_params()).count()
}

fn sizes_of(subs: &[Sub]) -> usize
    ensures { result ≡ min (length (spelled_all (map sub_option subs.now))) (2 ^ 64 - 1) }
{
    let mut size: usize = 0;
    for sub in subs {
        size = size.saturating_add(sub.size());
    }
    size
}

/// The octets of these options, as far as a number of 64 bits counts them.
fn size_of(items: &[Item]) -> usize
    ensures { result ≡ min (length (inside_octets items.now)) (2 ^ 64 - 1) }
{
    let mut size: usize = 0;
    for item in items {
        size = size.saturating_add(item.size());
    }
    size
}

fn fit(items: &[Item]) -> bool
    ensures { result ≡ list_all item_fits items.now }
{
    items.iter().all(|item| item.fits())
}

fn rule_count(items: &[Item]) -> usize
    ensures { result ≡ count_by is_rule items.now }
{
    items.iter().filter(|item| item.is_rule()).count()
}

fn dmr_count(items: &[Item]) -> usize
    ensures { result ≡ count_by is_dmr items.now }
{
    items.iter().filter(|item| item.is_dmr()).count()
}

impl Container {
    ghost use Rattle.s46_options.specs.Accepted.{is_accepted};

    /// The container of these items, or `None` where they are none.
    pub fn of(items: Vec<Item>) -> Option<Container>
        ensures valid { IsSome result ↔ (is_accepted items.items ≡ true) }
        ensures kept { IfSome result (λ container. container ≡ items.items) }
    {
        let rules = rule_count(&items);
        if fit(&items)
            && rules >= 1
            && rules <= MOST_RULES
            && dmr_count(&items) == 1
            && size_of(&items) <= MOST_OCTETS
        {
            Some(Container { items })
        } else {
            None
        }
    }

    /// The container of these items, which are accepted.
    pub(crate) fn accepted(items: Vec<Item>) -> Container
        requires { is_accepted items.items ≡ true }
        ensures { result ≡ items.items }
    {
        Container { items }
    }

    /// The items.
    pub fn as_slice(&self) -> &[Item]
        ensures items { result.now ≡ self.now }
        ensures accepted { is_accepted self.now ≡ true }
    {
        &self.items
    }
}
