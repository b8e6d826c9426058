//! Where the default mapping rule and the rules come from.

ghost use Rattle.std.specs.Prelude.{◌≡◌, ◌≤◌, ◌<◌, ◌^◌, ◌++◌, ◌∷◌, [], List, length, IfSome, IfNone, IfOk, Some, true, false, None};
ghost use Rattle.toml.specs.View.{table_view};
ghost use Rattle.map_rules.specs.declared.dmr.Dmr.{Dmr as DmrType};
ghost use Rattle.s46_options.specs.Accepted.{is_accepted};
ghost use Rattle.setup_tables.specs.Answer.{Gives, HasNone, exactly};
ghost use Rattle.setup_tables.specs.Lines.{lines_in, dmr_in};

use crate::keys::{has_key, value_at};
use crate::rule::{RuleLine, RuleLines};
use crate::spelled::dmr_at;
use crate::{SetupCause, SetupFault};
use map_rules::Dmr;
use octets::NoMemory;
use s46_options::{Container, HexFault, Item, OptionFault, offset_in, read_container, read_hex};
use std::alloc::Global;
use toml::Table;

/// The longest text of options that is read, in octets: more isn't to be had in a file of a configuration.
const MOST_TEXT: usize = 1 << 26;

/// The default mapping rule and the lines of the rules.
#[derive(Debug, Drop)]
pub struct Given {
    /// The default mapping rule.
    pub dmr: Dmr,
    /// The lines of the rules in their order.
    pub lines: RuleLines,
}

/// Where both come from.
#[derive(Debug, Drop)]
pub enum Origin {
    /// From `dmr` and `[[rule]]`.
    Keys(Dmr),
    /// From `options`.
    Container(Given),
    /// From `options`, which are refused for this cause at this place.
    Refused(SetupCause, u32),
}

/// The default mapping rule of a container's items.
fn dmr_of(items: &[Item]) -> Option<Dmr>
    ensures found { IfSome result (λ dmr. dmr_in items.now ≡ Some dmr.prefix) }
    ensures none { IfNone result ((dmr : DmrType) → dmr_in items.now ≡ Some dmr.prefix → ⊥) }
{
    for item in items {
        if let Item::Dmr(prefix) = item {
            return Dmr::new(*prefix);
        }
    }
    None
}

/// The lines of a container's rules.
fn lines_of(alloc: Global, items: &[Item]) -> Result<RuleLines, NoMemory>
    requires { is_accepted items.now ≡ true }
    ensures few { IfOk result (λ lines. length lines ≤ 256) }
    ensures lines { IfOk result (λ lines. lines ≡ lines_in items.now) }
{
    let mut lines = RuleLines::new(alloc);
    for item in items {
        if let Item::Rule {
            flag,
            ea,
            prefix4,
            prefix6,
            subs,
        } = item
        {
            lines.push(RuleLine {
                prefix6: *prefix6,
                prefix4: *prefix4,
                ea: *ea,
                offset: offset_in(subs.as_slice()),
                forward: *flag,
            })?;
        }
    }
    Ok(lines)
}

impl Given {
    ghost use Rattle.setup_tables.specs.Origin.{SaysItems};

    /// What a container says, or `None` where its default mapping rule is none.
    fn of(alloc: Global, container: &Container) -> Result<Option<Given>, NoMemory>
        ensures few { IfOk result (λ given. IfSome given (λ g. length g.lines ≤ 256)) }
        ensures found { IfOk result (λ given. IfSome given (SaysItems container.now)) }
        ensures none { IfOk result (λ given. IfNone given (HasNone SaysItems container.now)) }
    {
        let Some(dmr) = dmr_of(container.as_slice()) else {
            return Ok(None);
        };
        let lines = lines_of(alloc, container.as_slice())?;
        Ok(Some(Given { dmr, lines }))
    }
}

impl Origin {
    ghost use Rattle.setup_tables.specs.Origin.{SaysOptions, HasOrigin, HasFew, given_by};

    /// What the text at `options` says, or `None` where it is a container whose default mapping rule is none.
    fn of_options(alloc: Global, text: &str) -> Result<Option<Origin>, NoMemory>
        ensures few { IfOk result (λ from. IfSome from HasFew) }
        ensures found { IfOk result (λ from. IfSome from (SaysOptions text.now)) }
        ensures none { IfOk result (λ from. IfNone from (HasNone SaysOptions text.now)) }
    {
        if text.len() > MOST_TEXT {
            return Err(NoMemory);
        }
        let octets = match read_hex(alloc, text.as_bytes()) {
            Ok(octets) => octets,
            Err(HexFault::At(place)) => {
                return Ok(Some(Origin::Refused(SetupCause::BadHex, place)));
            }
            Err(HexFault::NoMemory) => return Err(NoMemory),
        };
        let container = match read_container(alloc, octets.as_slice()) {
            Ok(container) => container,
            Err(OptionFault::NoMemory) => return Err(NoMemory),
            Err(fault) => {
                let place = fault.place(octets.as_slice().len() as u32);
                return Ok(Some(Origin::Refused(SetupCause::BadContainer, place)));
            }
        };
        match Given::of(alloc, &container)? {
            Some(given) => Ok(Some(Origin::Container(given))),
            None => Ok(None),
        }
    }

    /// Where a document's default mapping rule and rules come from, or `None` where they come from nowhere or
    /// from both.
    pub(crate) fn read(
        alloc: Global,
        document: &Table,
        table: &Table,
    ) -> Result<Option<Origin>, NoMemory>
        ensures few { IfOk result (λ from. IfSome from HasFew) }
        ensures found { IfOk result (λ from. IfSome from (HasOrigin (table_view document.now) (table_view table.now))) }
        ensures none { IfOk result (λ from. IfNone from (HasNone (HasOrigin (table_view document.now)) (table_view table.now))) }
    {
        let Some(value) = value_at(table, "options") else {
            return match dmr_at(table, "dmr") {
                Some(dmr) => Ok(Some(Origin::Keys(dmr))),
                None => Ok(None),
            };
        };
        let Some(text) = value.as_str() else {
            return Ok(None);
        };
        if has_key(table, "dmr") || has_key(document, "rule") {
            return Ok(None);
        }
        Origin::of_options(alloc, text)
    }

    /// The default mapping rule and the lines, with those of `[[rule]]` where there are no options.
    pub fn given(self, lines: RuleLines) -> Result<Given, SetupFault>
        requires own { HasFew self }
        requires lines { length lines ≤ 256 }
        ensures few { IfOk result (λ given. length given.lines ≤ 256) }
        ensures exact { Gives (λ given. given) result (exactly (given_by self lines)) }
    {
        match self {
            Origin::Keys(dmr) => Ok(Given { dmr, lines }),
            Origin::Container(given) => Ok(given),
            Origin::Refused(cause, place) => Err(SetupFault::Refused(cause, place)),
        }
    }
}
