ghost use Rattle.std.specs.Prelude.{◌≡◌, ◌≤◌, map, length, IfSome, IfNone, IfOk};
ghost use Rattle.toml.specs.View.{view, table_view};
ghost use Rattle.setup_tables.specs.Answer.{Gives, HasNone, each};
ghost use Rattle.setup_tables.specs.Forward.{proto_named, proto_at, HasBinding, IsForward};

use crate::edge::bytes_of;
use crate::keys::{has_only, long_or, number_at, text_at};
use crate::spelled::addr4_at;
use crate::{SetupCause, SetupFault};
use nat_model::Binding;
use octets::{Bytes, List, NoMemory, Proto};
use std::alloc::Global;
use toml::{Table, Value};

/// The keys of `[[forward]]`.
const KEYS: [&str; 6] = ["edge", "proto", "port", "host", "host_port", "until"];

/// The greatest port.
const MOST_PORT: u16 = 65_535;

/// The greatest time at which a forward may end, in microseconds.
const MOST_UNTIL: u64 = (1 << 62) - 1;

/// The time at which it ends where none is given, in microseconds.
const NEVER: u64 = (1 << 63) - 1;

/// What a `[[forward]]` says.
#[derive(Debug, Drop)]
pub struct ForwardText {
    /// The name of an edge, which may be any text.
    pub edge: Bytes,
    /// It is kept and not live, and has the time in microseconds at which it ends.
    pub binding: Binding,
}

/// Texts of forwards in their order.
pub type ForwardTexts = List<ForwardText>;

/// The protocol of a word.
fn proto_named(word: &str) -> Option<Proto>
    ensures { result ≡ proto_named word.now }
{
    if word == "udp" {
        return Some(Proto::Udp);
    }
    if word == "tcp" {
        return Some(Proto::Tcp);
    }
    if word == "icmp" {
        return Some(Proto::Icmp);
    }
    None
}

/// The protocol at a key.
fn proto_at(table: &Table, key: &str) -> Option<Proto>
    ensures { result ≡ proto_at key.now (table_view table.now) }
{
    proto_named(text_at(table, key)?)
}

/// The binding that a table says.
fn binding_in(table: &Table) -> Option<Binding>
    ensures found { IfSome result (HasBinding (table_view table.now)) }
    ensures none { IfNone result (HasNone HasBinding (table_view table.now)) }
{
    Some(Binding {
        proto: proto_at(table, "proto")?,
        host: addr4_at(table, "host")?,
        host_port: number_at(table, "host_port", 0, MOST_PORT)?,
        port: number_at(table, "port", 0, MOST_PORT)?,
        deadline: long_or(NEVER, table, "until", MOST_UNTIL)?,
        live: false,
        kept: true,
    })
}

impl ForwardText {
    /// What a table says, or `None` where a key isn't as it should be.
    fn of(alloc: Global, value: &Value) -> Result<Option<ForwardText>, NoMemory>
        ensures found { IfOk result (λ forward. IfSome forward (IsForward (view value.now))) }
        ensures none { IfOk result (λ forward. IfNone forward (HasNone IsForward (view value.now))) }
    {
        let Some(table) = value.as_table() else {
            return Ok(None);
        };
        if !has_only(table, &KEYS) {
            return Ok(None);
        }
        let Some(edge) = text_at(table, "edge") else {
            return Ok(None);
        };
        let Some(binding) = binding_in(table) else {
            return Ok(None);
        };
        Ok(Some(ForwardText {
            edge: bytes_of(alloc, edge)?,
            binding,
        }))
    }
}

/// What each table says, or the first where a key isn't as it should be.
pub(crate) fn read_forwards(alloc: Global, values: &[Value]) -> Result<ForwardTexts, SetupFault>
    requires { length values.now ≤ 256 }
    ensures few { IfOk result (λ texts. length texts ≤ 256) }
    ensures exact { Gives (λ texts. texts) result (each SetupCause.BadForward IsForward (HasNone IsForward) (map view values.now)) }
{
    let mut texts = ForwardTexts::new(alloc);
    for (i, value) in values.iter().enumerate() {
        let found = ForwardText::of(alloc, value)?;
        let Some(text) = found else {
            return Err(SetupFault::Refused(SetupCause::BadForward, i as u32));
        };
        texts.push(text)?;
    }
    Ok(texts)
}
