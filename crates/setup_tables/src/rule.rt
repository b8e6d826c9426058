ghost use Rattle.std.specs.Prelude.{◌≤◌, map, length, IfSome, IfNone, IfOk};
ghost use Rattle.toml.specs.View.{view};
ghost use Rattle.setup_tables.specs.Answer.{Gives, HasNone, each};
ghost use Rattle.setup_tables.specs.Rule.{IsRule};

use crate::keys::{flag_or, has_only, number_at, number_or};
use crate::spelled::{prefix4_at, prefix6_at};
use crate::{SetupCause, SetupFault};
use octets::{List, Prefix4, Prefix6};
use std::alloc::Global;
use toml::Value;

/// The keys of `[[rule]]`.
const KEYS: [&str; 5] = ["prefix6", "prefix4", "ea", "offset", "forward"];

/// The greatest number of an octet, for `ea` and `offset`.
const MOST: u16 = 255;

/// The offset where none is given.
const DEFAULT_OFFSET: u16 = 6;

/// What a `[[rule]]` says, whatever its shape.
#[derive(Clone, Copy, Debug)]
pub struct RuleLine {
    pub prefix6: Prefix6,
    pub prefix4: Prefix4,
    /// The number of EA bits.
    pub ea: u8,
    /// The offset of the port set, in bits.
    pub offset: u8,
    /// Whether the rule forwards too.
    pub forward: bool,
}

/// Lines of rules in their order.
pub type RuleLines = List<RuleLine>;

impl RuleLine {
    /// What a table says, or `None` where a key isn't as it should be.
    pub(crate) fn of(value: &Value) -> Option<RuleLine>
        ensures found { IfSome result (IsRule (view value.now)) }
        ensures none { IfNone result (HasNone IsRule (view value.now)) }
    {
        let table = value.as_table()?;
        if !has_only(table, &KEYS) {
            return None;
        }
        Some(RuleLine {
            prefix6: prefix6_at(table, "prefix6")?,
            prefix4: prefix4_at(table, "prefix4")?,
            ea: number_at(table, "ea", 0, MOST)? as u8,
            offset: number_or(DEFAULT_OFFSET, table, "offset", MOST)? as u8,
            forward: flag_or(false, table, "forward")?,
        })
    }
}

/// What each table says, or the first where a key isn't as it should be.
pub(crate) fn read_lines(alloc: Global, values: &[Value]) -> Result<RuleLines, SetupFault>
    requires { length values.now ≤ 256 }
    ensures few { IfOk result (λ lines. length lines ≤ 256) }
    ensures exact { Gives (λ lines. lines) result (each SetupCause.BadRule IsRule (HasNone IsRule) (map view values.now)) }
{
    let mut lines = RuleLines::new(alloc);
    for (i, value) in values.iter().enumerate() {
        let Some(line) = RuleLine::of(value) else {
            return Err(SetupFault::Refused(SetupCause::BadRule, i as u32));
        };
        lines.push(line)?;
    }
    Ok(lines)
}
