//! Writing a container.

ghost use Rattle.std.specs.Prelude.{◌≡◌, ◌<◌, ◌^◌, ◌≤◌, ◌++◌, true, List, length, map, IfOk, OnOk, None};
ghost use Rattle.s46_options.specs.Items.{item_option, sub_option, params_octets, rule_octets, dmr_octets, inside_octets, container_octets, sub_in_fields, item_in_fields};
ghost use Rattle.s46_options.specs.Options.{spelled, spelled_all};
ghost use Rattle.std.specs.List.{list_all};
ghost use Rattle.octets.specs.Field.{in_quad};
ghost use Rattle.s46_options.specs.Accepted.{sub_fits, item_fits};
ghost use Rattle.s46_options.specs.Faults.{fault_of};
ghost use Rattle.s46_options.specs.Reading.{ReadsContainer};

use crate::codes::{DMR, MAPT, PARAMS, RULE};
use crate::options::push_option;
use crate::prefixes::push_prefix6;
use crate::{Container, Item, Sub};
use byteorder::{BigEndian, ByteOrder};
use octets::{Bytes, NoMemory, Prefix6};
use std::alloc::Global;

/// The octets of port parameters.
fn params_octets(offset: u8, psid_len: u8, psid: u16) -> [u8; 4]
    requires len { psid_len ≤ 16 }
    requires psid { psid < 2 ^ psid_len }
    ensures { result ≡ params_octets offset psid_len psid }
{
    let mut octets = [offset, psid_len, 0, 0];
    let bits = u32::from(psid) << (16 - psid_len);
    BigEndian::write_u16(&mut octets[2..], bits as u16);
    octets
}

/// Adds an option of a rule.
fn push_sub(out: &mut Bytes, sub: &Sub) -> Result<(), NoMemory>
    requires fits { sub_fits sub.now ≡ true }
    requires short { length (sub_option sub.now).octets < 2 ^ 16 }
    ensures octets { OnOk result (out.new ≡ out.old ++ spelled (sub_option sub.now)) }
    ensures fields { OnOk result (sub_in_fields sub.now ≡ true) }
{
    match sub {
        Sub::Params {
            offset,
            psid_len,
            psid,
        } => push_option(out, PARAMS, &params_octets(*offset, *psid_len, *psid)),
        Sub::Other(code, octets) => push_option(out, *code, octets.as_slice()),
    }
}

/// Adds the options of a rule.
fn push_subs(out: &mut Bytes, subs: &[Sub]) -> Result<(), NoMemory>
    requires fits { list_all sub_fits subs.now ≡ true }
    requires short { length (spelled_all (map sub_option subs.now)) < 2 ^ 16 }
    ensures octets { OnOk result (out.new ≡ out.old ++ spelled_all (map sub_option subs.now)) }
    ensures fields { OnOk result (list_all sub_in_fields subs.now ≡ true) }
{
    for sub in subs {
        push_sub(out, sub)?;
    }
    Ok(())
}

/// Adds a number of 32 bits.
fn push_quad(out: &mut Bytes, number: u32) -> Result<(), NoMemory>
    ensures { OnOk result (out.new ≡ out.old ++ in_quad number) }
{
    let mut octets = [0; 4];
    BigEndian::write_u32(&mut octets, number);
    out.extend(&octets)
}

/// The octets of a default mapping rule.
fn dmr_octets(alloc: Global, prefix: &Prefix6) -> Result<Bytes, NoMemory>
    ensures octets { IfOk result (λ octets. octets ≡ dmr_octets prefix.now) }
    ensures bits { OnOk result (prefix.now.bits < 2 ^ 128) }
{
    let mut octets = Bytes::new(alloc);
    octets.push(prefix.len)?;
    push_prefix6(&mut octets, prefix)?;
    Ok(octets)
}

impl Item {
    /// The code of the option.
    fn code(&self) -> u16
        ensures { result ≡ (item_option self.now).code }
    {
        match self {
            Item::Rule { .. } => RULE,
            Item::Dmr(_) => DMR,
            Item::Other(code, _) => *code,
        }
    }

    /// The octets of the option.
    fn octets(&self, alloc: Global) -> Result<Bytes, NoMemory>
        requires fits { item_fits self.now ≡ true }
        requires short { length (item_option self.now).octets < 2 ^ 16 }
        ensures octets { IfOk result (λ octets. octets ≡ (item_option self.now).octets) }
        ensures fields { OnOk result (item_in_fields self.now ≡ true) }
    {
        match self {
            Item::Rule {
                flag,
                ea,
                prefix4,
                prefix6,
                subs,
            } => {
                let mut octets = Bytes::new(alloc);
                octets.push(if *flag { 1 } else { 0 })?;
                octets.push(*ea)?;
                octets.push(prefix4.len)?;
                push_quad(&mut octets, prefix4.bits)?;
                octets.push(prefix6.len)?;
                push_prefix6(&mut octets, prefix6)?;
                push_subs(&mut octets, subs.as_slice())?;
                Ok(octets)
            }
            Item::Dmr(prefix) => dmr_octets(alloc, prefix),
            Item::Other(code, octets) => {
                let _code = *code;
                octets.copy(alloc)
            }
        }
    }
}

/// What stands inside of the container of these items.
fn inside(alloc: Global, items: &[Item]) -> Result<Bytes, NoMemory>
    requires fits { list_all item_fits items.now ≡ true }
    requires short { length (inside_octets items.now) < 2 ^ 16 }
    ensures octets { IfOk result (λ inside. inside ≡ inside_octets items.now) }
    ensures fields { OnOk result (list_all item_in_fields items.now ≡ true) }
{
    let mut inside = Bytes::new(alloc);
    for item in items {
        let octets = item.octets(alloc)?;
        push_option(&mut inside, item.code(), octets.as_slice())?;
    }
    Ok(inside)
}

/// Writes a container (RFC 7598, section 5.2). What is written shows no fault, and is read again as the same items.
pub fn write_container(alloc: Global, container: &Container) -> Result<Bytes, NoMemory>
    ensures octets { IfOk result (λ octets. octets ≡ container_octets container.now) }
    ensures sound { IfOk result (λ octets. fault_of octets ≡ None) }
    ensures read { IfOk result (λ octets. ReadsContainer octets container.now) }
{
    let inside = inside(alloc, container.as_slice())?;
    let mut out = Bytes::new(alloc);
    push_option(&mut out, MAPT, inside.as_slice())?;
    Ok(out)
}
