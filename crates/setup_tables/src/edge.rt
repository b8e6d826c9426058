ghost use Rattle.std.specs.Prelude.{◌≡◌, ◌≤◌, map, length, IfSome, IfNone, IfOk};
ghost use Rattle.toml.specs.View.{view};
ghost use Rattle.setup_tables.specs.Answer.{Gives, HasNone, each};
ghost use Rattle.setup_tables.specs.Edge.{IsEdge};

use crate::domain::name_of;
use crate::edge_name::name_at;
use crate::keys::{has_only, optional_text_at};
use crate::spelled::{addr4_at, prefix6_at};
use crate::{SetupCause, SetupFault};
use octets::{Addr4, Bytes, List, Name, NoMemory, Prefix6};
use std::alloc::Global;
use toml::Value;

/// The keys of `[[edge]]`.
const KEYS: [&str; 4] = ["name", "prefix", "lan", "capture"];

/// What an `[[edge]]` says.
#[derive(Debug, Drop)]
pub struct EdgeLine {
    /// The edge's name: 1 to 32 lower-case letters, digits and hyphens.
    pub name: Bytes,
    /// The edge's IPv6 prefix, by which it holds an address and a port set.
    pub prefix: Prefix6,
    /// The edge's own address on its LAN.
    pub lan: Addr4,
    /// The capture of its LAN.
    pub capture: Option<Name>,
}

/// Edges in their order.
pub type Edges = List<EdgeLine>;

/// A text in memory of its own.
pub(crate) fn bytes_of(alloc: Global, text: &str) -> Result<Bytes, NoMemory>
    ensures { IfOk result (λ bytes. bytes ≡ text.now) }
{
    let mut bytes = Bytes::new(alloc);
    bytes.extend(text.as_bytes())?;
    Ok(bytes)
}

impl EdgeLine {
    /// What a table says, or `None` where a key isn't as it should be.
    fn of(alloc: Global, value: &Value) -> Result<Option<EdgeLine>, NoMemory>
        ensures found { IfOk result (λ edge. IfSome edge (IsEdge (view value.now))) }
        ensures none { IfOk result (λ edge. IfNone edge (HasNone IsEdge (view value.now))) }
    {
        let Some(table) = value.as_table() else {
            return Ok(None);
        };
        if !has_only(table, &KEYS) {
            return Ok(None);
        }
        let Some(name) = name_at(table, "name") else {
            return Ok(None);
        };
        let Some(prefix) = prefix6_at(table, "prefix") else {
            return Ok(None);
        };
        let Some(lan) = addr4_at(table, "lan") else {
            return Ok(None);
        };
        let Some(capture) = optional_text_at(table, "capture") else {
            return Ok(None);
        };
        Ok(Some(EdgeLine {
            name: bytes_of(alloc, name)?,
            prefix,
            lan,
            capture: name_of(alloc, capture)?,
        }))
    }
}

/// What each table says, or the first where a key isn't as it should be.
pub(crate) fn read_edges(alloc: Global, values: &[Value]) -> Result<Edges, SetupFault>
    requires { length values.now ≤ 256 }
    ensures few { IfOk result (λ edges. length edges ≤ 256) }
    ensures exact { Gives (λ edges. edges) result (each SetupCause.BadEdge IsEdge (HasNone IsEdge) (map view values.now)) }
{
    let mut edges = Edges::new(alloc);
    for (i, value) in values.iter().enumerate() {
        let found = EdgeLine::of(alloc, value)?;
        let Some(edge) = found else {
            return Err(SetupFault::Refused(SetupCause::BadEdge, i as u32));
        };
        edges.push(edge)?;
    }
    Ok(edges)
}
