//! Reading a container.

ghost use Rattle.std.specs.Prelude.{◌≡◌, ◌+◌, ◌<◌, ◌≤◌, ◌^◌, ◌++◌, ◌⊎◌, ◌∷◌, true, if◌then◌else◌, ◌||◌, [], List, length, map, drop, IfOk, IfErr, OnOk, Some, None};
ghost use Rattle.std.specs.List.{list_all, count_by};
ghost use Rattle.octets.specs.Field.{word};
ghost use Rattle.s46_options.specs.declared.item.Item.{Item as ItemType};
ghost use Rattle.s46_options.specs.Options.{spelled_all, cut};
ghost use Rattle.s46_options.specs.Raw.{cut_of, options_of, option_of};
ghost use Rattle.s46_options.specs.Items.{item_option, container_octets};
ghost use Rattle.s46_options.specs.Accepted.{item_fits, is_accepted};
ghost use Rattle.s46_options.specs.Faults.{has_code, dmr_faults, item_faults_beside, item_judge, begun_item_faults, all_faults, missing, inside_faults, faults, first, fault_of};
ghost use Rattle.std.specs.List.{AllZip};
ghost use Rattle.s46_options.specs.Reading.{ReadsItem, ReadsContainer};

use crate::codes::{DMR, HEAD_LEN, MAPT, RULE};
use crate::options::{Cut, LENGTH_AT, RawOption, cut_options};
use crate::prefixes::{MOST_LEN6, octets_for, read_prefix6};
use crate::rule::read_rule;
use crate::{Container, Item, OptionFault};
use byteorder::{BigEndian, ByteOrder};
use octets::Bytes;
use std::alloc::Global;

/// The most rules of a container.
const MOST_RULES: u32 = 256;

/// The default mapping rule that these octets of the option at a place are: the length of the prefix, and its
/// bits in whole octets (RFC 7598, section 4.3).
fn read_dmr(at: u32, octets: &[u8]) -> Result<Item, OptionFault>
    requires { at ≤ 65535 }
    ensures sound { OnOk result (dmr_faults at octets.now ≡ []) }
    ensures option { IfOk result (λ item. item_option item ≡ record { code = 91; octets = octets.now }) }
    ensures reads { IfOk result (ReadsItem (record { code = 91; octets = octets.now })) }
    ensures fits { IfOk result (λ item. item_fits item ≡ true) }
    ensures refused { IfErr result (λ e. first (dmr_faults at octets.now) ≡ Some e) }
{
    let bad_length = OptionFault::BadLength(at + LENGTH_AT as u32);
    if octets.is_empty() {
        return Err(bad_length);
    }
    let len = octets[0];
    if len > MOST_LEN6 {
        return Err(OptionFault::BadPrefixLen(at + 4));
    }
    if octets.len() != 1 + octets_for(len) {
        return Err(bad_length);
    }
    Ok(Item::Dmr(read_prefix6(at + 5, len, &octets[1..])?))
}

/// What stands before an option of the container.
#[derive(Clone, Copy)]
struct Seen {
    /// How many rules.
    rules: u32,
    /// Whether a default mapping rule does.
    dmr: bool,
}

impl Seen {
    /// Whether this option and those before it are so.
    fn with(self, option: &RawOption<'_>) -> Seen
        requires { self.rules < 65536 }
        ensures rules { result.rules ≡ self.rules + (if has_code 89 (option_of option.now) then 1 else 0) }
        ensures dmr { result.dmr ≡ (self.dmr || has_code 91 (option_of option.now)) }
    {
        Seen {
            rules: if option.code == RULE {
                self.rules + 1
            } else {
                self.rules
            },
            dmr: self.dmr || option.code == DMR,
        }
    }
}

/// An option of the container, at a place, behind others.
#[tactic(auto, unfolding(crate::specs::Faults::item_faults_beside))]
fn read_item(
    alloc: Global,
    at: u32,
    seen: Seen,
    option: &RawOption<'_>,
) -> Result<Item, OptionFault>
    requires { at + (4 + length option.now.octets.now) ≤ 65539 }
    ensures sound { OnOk result (item_faults_beside seen.rules seen.dmr at (option_of option.now) ≡ []) }
    ensures option { IfOk result (λ item. item_option item ≡ option_of option.now) }
    ensures reads { IfOk result (ReadsItem (option_of option.now)) }
    ensures fits { IfOk result (λ item. item_fits item ≡ true) }
    ensures refused { IfErr result
        (λ e. (first (item_faults_beside seen.rules seen.dmr at (option_of option.now)) ≡ Some e)
        ⊎ (e ≡ OptionFault.NoMemory)) }
{
    match option.code {
        RULE => {
            if seen.rules >= MOST_RULES {
                return Err(OptionFault::TooManyRules(at));
            }
            read_rule(alloc, at, option.octets)
        }
        DMR => {
            if seen.dmr {
                return Err(OptionFault::SecondDmr(at));
            }
            read_dmr(at, option.octets)
        }
        code => {
            let mut octets = Bytes::new(alloc);
            octets.extend(option.octets)?;
            Ok(Item::Other(code, octets))
        }
    }
}

/// The first fault of an option of the container, at a place, that passes the container's end.
fn long_item(at: u32, seen: Seen, left: &[u8]) -> OptionFault
    requires place { at ≤ 65535 }
    requires head { 4 ≤ length left.now }
    ensures { first (begun_item_faults seen.rules seen.dmr at (word left.now 0) ++ OptionFault.BadLength (at + 2) ∷ []) ≡ Some result }
{
    let code = BigEndian::read_u16(left);
    if code == RULE && seen.rules >= MOST_RULES {
        return OptionFault::TooManyRules(at);
    }
    if code == DMR && seen.dmr {
        return OptionFault::SecondDmr(at);
    }
    OptionFault::BadLength(at + LENGTH_AT as u32)
}

/// The options of the container, of which the first stands at place 4.
fn read_items(alloc: Global, parts: &Cut<'_>) -> Result<Vec<Item>, OptionFault>
    requires { length (spelled_all (options_of parts.now.options.items)) + length parts.now.left.now ≤ 65535 }
    ensures sound { OnOk result (all_faults item_judge 4 (cut_of parts.now) ≡ []) }
    ensures last { OnOk result (missing (options_of parts.now.options.items) ≡ []) }
    ensures reads { IfOk result (λ items. AllZip ReadsItem (options_of parts.now.options.items) items.items) }
    ensures options { IfOk result (λ items. map item_option items.items ≡ options_of parts.now.options.items) }
    ensures accepted { IfOk result (λ items. is_accepted items.items ≡ true) }
    ensures refused { IfErr result
        (λ e. (first (all_faults item_judge 4 (cut_of parts.now) ++ missing (options_of parts.now.options.items))
        ≡ Some e) ⊎ (e ≡ OptionFault.NoMemory)) }
{
    let mut items = Vec::new(alloc);
    let mut place = HEAD_LEN as u32;
    let mut seen = Seen {
        rules: 0,
        dmr: false,
    };
    for option in &parts.options {
        items.push(read_item(alloc, place, seen, option)?)?;
        seen = seen.with(option);
        place += (HEAD_LEN + option.octets.len()) as u32;
    }
    if parts.left.len() >= HEAD_LEN {
        return Err(long_item(place, seen, parts.left));
    }
    if seen.rules == 0 {
        return Err(OptionFault::NoRule);
    }
    if !seen.dmr {
        return Err(OptionFault::NoDmr);
    }
    Ok(items)
}

/// What stands inside of the container, which is all of the text.
#[tactic(auto, unfolding(crate::specs::Faults::faults))]
fn inside(octets: &[u8]) -> Result<&[u8], OptionFault>
    ensures inside { IfOk result (λ inside. inside.now ≡ drop 4 octets.now) }
    ensures code { OnOk result (word octets.now 0 ≡ 95) }
    ensures length { OnOk result (length octets.now ≡ 4 + word octets.now 2) }
    ensures exact { OnOk result (faults octets.now ≡ inside_faults (cut (drop 4 octets.now))) }
    ensures refused { IfErr result (λ e. fault_of octets.now ≡ Some e) }
{
    if octets.len() < HEAD_LEN {
        return Err(OptionFault::Short(octets.len() as u32));
    }
    let code = BigEndian::read_u16(octets);
    if code != MAPT {
        return Err(OptionFault::NotMapt(code));
    }
    let end = HEAD_LEN + usize::from(BigEndian::read_u16(&octets[LENGTH_AT..]));
    if octets.len() < end {
        return Err(OptionFault::Short(octets.len() as u32));
    }
    if octets.len() > end {
        return Err(OptionFault::BadLength(LENGTH_AT as u32));
    }
    Ok(&octets[HEAD_LEN..])
}

/// Reads a container, one option S46_CONT_MAPT and nothing else (RFC 7598, section 5.2). It is refused with
/// the first fault from the left: what is wrong with the container's own code and length, and then the fault
/// with the least place of all that the options show; `NoRule` and `NoDmr` come last.
/// A text of any length is read: one that is longer than a container may be is `NotMapt` or `BadLength(2)`.
#[tactic(auto, unfolding(crate::specs::Faults::inside_faults))]
pub fn read_container(alloc: Global, octets: &[u8]) -> Result<Container, OptionFault>
    ensures read { IfOk result (ReadsContainer octets.now) }
    ensures back { IfOk result (λ container. octets.now ≡ container_octets container) }
    ensures sound { OnOk result (fault_of octets.now ≡ None) }
    ensures refused { IfErr result (λ e. (fault_of octets.now ≡ Some e) ⊎ (e ≡ OptionFault.NoMemory)) }
{
    let inside = inside(octets)?;
    let parts = cut_options(alloc, inside)?;
    if parts.leaves_over() {
        return Err(OptionFault::BadLength(LENGTH_AT as u32));
    }
    let items = read_items(alloc, &parts)?;
    Ok(Container::accepted(items))
}
