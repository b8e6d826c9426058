//! S46_RULE (RFC 7598, section 4.1).
//!
//! | octets | field |
//! |---|---|
//! | 0 | flags: the lowest bit says that it forwards, the others are 0 |
//! | 1 | EA length |
//! | 2 | length of the IPv4 prefix |
//! | 3 to 6 | bits of the IPv4 prefix |
//! | 7 | length of the IPv6 prefix |
//! | 8 on | bits of the IPv6 prefix, in whole octets |
//! | then | options |

ghost use Rattle.std.specs.Prelude.{◌≡◌, ◌+◌, ◌<◌, ◌≤◌, ◌⊎◌, ◌++◌, ◌∷◌, true, false, [], length, map, IfOk, IfErr, OnOk, Some};
ghost use Rattle.std.specs.List.{list_all, count_by};
ghost use Rattle.octets.specs.Bits.{bit_of};
ghost use Rattle.octets.specs.Field.{octet, word, quad};
ghost use Rattle.s46_options.specs.Options.{spelled_all};
ghost use Rattle.s46_options.specs.Raw.{cut_of, options_of, option_of};
ghost use Rattle.s46_options.specs.Items.{item_option, sub_option};
ghost use Rattle.s46_options.specs.Accepted.{item_fits, is_rule, sub_fits, is_params};
ghost use Rattle.s46_options.specs.Faults.{leaves_over, subs_of, rule_end, body_faults, field_faults, rule_faults, sub_faults_beside, sub_judge, begun_sub_faults, all_faults, first};
ghost use Rattle.std.specs.List.{AllZip};
ghost use Rattle.s46_options.specs.Reading.{ReadsSub, ReadsItem};

use crate::codes::{HEAD_LEN, PARAMS};
use crate::options::{Cut, LENGTH_AT, RawOption, cut_options};
use crate::params::read_params;
use crate::prefixes::{MOST_LEN6, octets_for, read_prefix4, read_prefix6};
use crate::{Item, OptionFault, Sub, Subs};
use byteorder::{BigEndian, ByteOrder};
use octets::{Bytes, NoMemory, Prefix4};
use std::alloc::Global;

const FLAGS: usize = 0;

const EA: usize = 1;

const LEN4: usize = 2;

const BITS4: usize = 3;

const LEN6: usize = 7;

const BITS6: usize = 8;

/// The greatest EA length.
const MOST_EA: u8 = 48;

/// The fields of a rule before its IPv6 prefix.
#[derive(Clone, Copy)]
struct Fields {
    flag: bool,
    ea: u8,
    prefix4: Prefix4,
}

/// The fields of the rule at a place.
#[tactic(auto, unfolding(crate::specs::Faults::field_faults))]
fn read_fields(at: u32, octets: &[u8]) -> Result<Fields, OptionFault>
    requires place { at ≤ 65535 }
    requires whole { 8 ≤ length octets.now }
    ensures sound { OnOk result (field_faults at octets.now ≡ []) }
    ensures flag { IfOk result (λ fields. bit_of fields.flag ≡ octet octets.now 0) }
    ensures ea { IfOk result (λ fields. fields.ea ≡ octet octets.now 1) }
    ensures ea_most { IfOk result (λ fields. fields.ea ≤ 48) }
    ensures len4 { IfOk result (λ fields. fields.prefix4.len ≡ octet octets.now 2) }
    ensures bits4 { IfOk result (λ fields. fields.prefix4.bits ≡ quad octets.now 3) }
    ensures refused { IfErr result (λ e. first (field_faults at octets.now) ≡ Some e) }
{
    let flags = octets[FLAGS];
    if flags > 1 {
        return Err(OptionFault::Reserved(at + 4));
    }
    let ea = octets[EA];
    if ea > MOST_EA {
        return Err(OptionFault::BadPrefixLen(at + 5));
    }
    let prefix4 = read_prefix4(at + 6, octets[LEN4], &octets[BITS4..])?;
    Ok(Fields {
        flag: flags == 1,
        ea,
        prefix4,
    })
}

/// An option inside of a rule, at a place. Port parameters stand before it, or don't.
#[tactic(auto, unfolding(crate::specs::Faults::sub_faults_beside))]
fn read_sub(
    alloc: Global,
    at: u32,
    second: bool,
    option: &RawOption<'_>,
) -> Result<Sub, OptionFault>
    requires { at + length option.now.octets.now ≤ 65535 }
    ensures sound { OnOk result (sub_faults_beside second at (option_of option.now) ≡ []) }
    ensures option { IfOk result (λ sub. sub_option sub ≡ option_of option.now) }
    ensures reads { IfOk result (ReadsSub (option_of option.now)) }
    ensures fits { IfOk result (λ sub. sub_fits sub ≡ true) }
    ensures refused { IfErr result
        (λ e. (first (sub_faults_beside second at (option_of option.now)) ≡ Some e) ⊎ (e ≡ OptionFault.NoMemory)) }
{
    if option.code != PARAMS {
        let mut octets = Bytes::new(alloc);
        octets.extend(option.octets)?;
        return Ok(Sub::Other(option.code, octets));
    }
    if second {
        return Err(OptionFault::SecondParams(at));
    }
    read_params(at, option.octets)
}

/// The options inside of a rule, of which the first stands at a place.
fn read_subs(alloc: Global, at: u32, parts: &Cut<'_>) -> Result<Subs, OptionFault>
    requires { at + (length (spelled_all (options_of parts.now.options.items)) + length parts.now.left.now) ≤ 65539 }
    ensures sound { OnOk result (all_faults sub_judge at (cut_of parts.now) ≡ []) }
    ensures reads { IfOk result (AllZip ReadsSub (options_of parts.now.options.items)) }
    ensures options { IfOk result (λ subs. map sub_option subs ≡ options_of parts.now.options.items) }
    ensures fits { IfOk result (λ subs. list_all sub_fits subs ≡ true) }
    ensures once { IfOk result (λ subs. count_by is_params subs ≤ 1) }
    ensures refused { IfErr result (λ e. (first (all_faults sub_judge at (cut_of parts.now)) ≡ Some e) ⊎ (e ≡ OptionFault.NoMemory)) }
{
    let mut subs = Vec::new(alloc);
    let mut place = at;
    let mut second = false;
    for option in &parts.options {
        subs.push(read_sub(alloc, place, second, option)?)?;
        second |= option.code == PARAMS;
        place += (HEAD_LEN + option.octets.len()) as u32;
    }
    if parts.left.len() >= HEAD_LEN {
        return Err(long_sub(place, second, parts.left));
    }
    Ok(Subs::from_vec(subs))
}

/// The first fault of an option inside of a rule, at a place, that passes the rule's end. Port parameters stand
/// before it, or don't.
fn long_sub(at: u32, second: bool, left: &[u8]) -> OptionFault
    requires place { at ≤ 65535 }
    requires head { 4 ≤ length left.now }
    ensures { first (begun_sub_faults second at (word left.now 0) ++ OptionFault.BadLength (at + 2) ∷ []) ≡ Some result }
{
    if BigEndian::read_u16(left) == PARAMS && second {
        return OptionFault::SecondParams(at);
    }
    OptionFault::BadLength(at + LENGTH_AT as u32)
}

/// The rule that these octets of the option at a place are, which hold its fields and its IPv6 prefix. The
/// options behind these are cut.
#[tactic(auto, unfolding(crate::specs::Faults::body_faults))]
fn read_body(alloc: Global, at: u32, octets: &[u8], parts: &Cut<'_>) -> Result<Item, OptionFault>
    requires place { at + (4 + length octets.now) ≤ 65539 }
    requires whole { 8 ≤ length octets.now }
    requires len6 { octet octets.now 7 ≤ 128 }
    requires end { rule_end octets.now ≤ length octets.now }
    requires parts { cut_of parts.now ≡ subs_of octets.now }
    requires used { leaves_over (cut_of parts.now) ≡ false }
    ensures sound { OnOk result (body_faults at octets.now ≡ []) }
    ensures option { IfOk result (λ item. item_option item ≡ record { code = 89; octets = octets.now }) }
    ensures reads { IfOk result (ReadsItem (record { code = 89; octets = octets.now })) }
    ensures fits { IfOk result (λ item. item_fits item ≡ true) }
    ensures refused { IfErr result (λ e. (first (body_faults at octets.now) ≡ Some e) ⊎ (e ≡ OptionFault.NoMemory)) }
{
    let len6 = octets[LEN6];
    let end = BITS6 + octets_for(len6);
    let fields = read_fields(at, octets)?;
    let prefix6 = read_prefix6(at + 12, len6, &octets[BITS6..end])?;
    let subs = read_subs(alloc, at + (HEAD_LEN + end) as u32, parts)?;
    Ok(Item::Rule {
        flag: fields.flag,
        ea: fields.ea,
        prefix4: fields.prefix4,
        prefix6,
        subs,
    })
}

/// The rule that these octets of the option at a place are.
pub(crate) fn read_rule(alloc: Global, at: u32, octets: &[u8]) -> Result<Item, OptionFault>
    requires { at + (4 + length octets.now) ≤ 65539 }
    ensures sound { OnOk result (rule_faults at octets.now ≡ []) }
    ensures option { IfOk result (λ item. item_option item ≡ record { code = 89; octets = octets.now }) }
    ensures reads { IfOk result (ReadsItem (record { code = 89; octets = octets.now })) }
    ensures fits { IfOk result (λ item. item_fits item ≡ true) }
    ensures refused { IfErr result (λ e. (first (rule_faults at octets.now) ≡ Some e) ⊎ (e ≡ OptionFault.NoMemory)) }
{
    let bad_length = OptionFault::BadLength(at + LENGTH_AT as u32);
    if octets.len() < BITS6 {
        return Err(bad_length);
    }
    let len6 = octets[LEN6];
    if len6 > MOST_LEN6 {
        let _fields = read_fields(at, octets)?;
        return Err(OptionFault::BadPrefixLen(at + 11));
    }
    let end = BITS6 + octets_for(len6);
    if octets.len() < end {
        return Err(bad_length);
    }
    let parts = cut_options(alloc, &octets[end..])?;
    if parts.leaves_over() {
        return Err(bad_length);
    }
    read_body(alloc, at, octets, &parts)
}
