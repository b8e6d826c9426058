//! A container as text.

ghost use Rattle.std.specs.Prelude.{◌≡◌, ◌++◌, List, IfOk, OnOk};
ghost use Rattle.std.specs.List.{flat_map};
ghost use Rattle.s46_options.specs.Items.{container_octets};
ghost use Rattle.s46_options.specs.Text.{offset_in, dmr_lines, rule_lines, octets_line, container_text};

use crate::{Container, Item, Sub, write_container};
use octets::{Bytes, NoMemory};
use rule_book::{RuleParts, dmr_line};
use std::alloc::Global;

/// The offset without port parameters (RFC 7597, section 5.1).
const DEFAULT_OFFSET: u8 = 6;

/// The PSID offset of a rule with these options: that of its port parameters, and 6 without any.
pub fn offset_in(subs: &[Sub]) -> u8
    ensures { result ≡ offset_in subs.now }
{
    for sub in subs {
        if let Sub::Params { offset, .. } = sub {
            return *offset;
        }
    }
    DEFAULT_OFFSET
}

/// Adds the line of an item that is a default mapping rule.
fn push_dmr_line(alloc: Global, text: &mut Bytes, item: &Item) -> Result<(), NoMemory>
    ensures { OnOk result (text.new ≡ text.old ++ dmr_lines item.now) }
{
    match item {
        Item::Dmr(prefix) => text.extend(dmr_line(alloc, prefix)?.as_slice()),
        Item::Rule { .. } | Item::Other(..) => Ok(()),
    }
}

/// Adds the line of an item that is a rule.
fn push_rule_line(alloc: Global, text: &mut Bytes, item: &Item) -> Result<(), NoMemory>
    ensures { OnOk result (text.new ≡ text.old ++ rule_lines item.now) }
{
    match item {
        Item::Rule {
            flag,
            ea,
            prefix4,
            prefix6,
            subs,
        } => {
            let parts = RuleParts {
                prefix6: *prefix6,
                prefix4: *prefix4,
                ea: *ea,
                offset: offset_in(subs.as_slice()),
                forward: *flag,
            };
            text.extend(parts.line(alloc)?.as_slice())
        }
        Item::Dmr(_) | Item::Other(..) => Ok(()),
    }
}

/// Adds the octets in hexadecimal digits.
fn push_octets_line(alloc: Global, text: &mut Bytes, octets: &[u8]) -> Result<(), NoMemory>
    ensures { OnOk result (text.new ≡ text.old ++ octets_line octets.now) }
{
    text.extend(b"octets ")?;
    text.extend(hex::encode(alloc, octets)?.as_bytes())?;
    text.push(b'\n')
}

/// The container as text: the line of the default mapping rule, one line a rule in their order, each as a rule
/// book has it, and then `octets` and the octets of the container in lower-case hexadecimal digits.
#[tactic(auto, unfolding(crate::specs::Text::container_text))]
pub fn options_text(alloc: Global, container: &Container) -> Result<Bytes, NoMemory>
    ensures { IfOk result (λ text. text ≡ container_text container.now) }
{
    let items = container.as_slice();
    let mut text = Bytes::new(alloc);
    for item in items {
        push_dmr_line(alloc, &mut text, item)?;
    }
    for item in items {
        push_rule_line(alloc, &mut text, item)?;
    }
    let octets = write_container(alloc, container)?;
    push_octets_line(alloc, &mut text, octets.as_slice())?;
    Ok(text)
}
