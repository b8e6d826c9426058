//! The addresses and prefixes whose texts stand at the keys of a table.

ghost use Rattle.std.specs.Prelude.{◌≡◌, IfSome, IfNone, IsSomeAnd};
ghost use Rattle.toml.specs.View.{table_view};
ghost use Rattle.map_rules.specs.declared.dmr.Dmr.{Dmr as DmrType};
ghost use Rattle.octets.specs.declared.address.Addr4.{Addr4 as Addr4Type};
ghost use Rattle.octets.specs.declared.prefix.Prefix4.{Prefix4 as Prefix4Type};
ghost use Rattle.octets.specs.declared.prefix.Prefix6.{Prefix6 as Prefix6Type};
ghost use Rattle.setup_tables.specs.Spelled.{HasAddr4, HasPrefix4, HasPrefix6, HasDmr};

use crate::keys::text_at;
use map_rules::Dmr;
use octets::{Addr4, Prefix4, Prefix6, read_addr4, read_prefix4, read_prefix6};
use toml::Table;

/// The IPv4 address at a key.
pub(crate) fn addr4_at(table: &Table, key: &str) -> Option<Addr4>
    ensures found { IfSome result (HasAddr4 key.now (table_view table.now)) }
    ensures only { (a : Addr4Type) → HasAddr4 key.now (table_view table.now) a → IsSomeAnd result (λ b. b.0 ≡ a.0) }
{
    read_addr4(text_at(table, key)?.as_bytes()).ok()
}

/// The IPv4 prefix at a key.
pub(crate) fn prefix4_at(table: &Table, key: &str) -> Option<Prefix4>
    ensures found { IfSome result (HasPrefix4 key.now (table_view table.now)) }
    ensures only { (p : Prefix4Type)
        → HasPrefix4 key.now (table_view table.now) p
        → IsSomeAnd result (λ q. (q.bits ≡ p.bits) × (q.len ≡ p.len)) }
{
    read_prefix4(text_at(table, key)?.as_bytes()).ok()
}

/// The IPv6 prefix at a key.
pub(crate) fn prefix6_at(table: &Table, key: &str) -> Option<Prefix6>
    ensures found { IfSome result (HasPrefix6 key.now (table_view table.now)) }
    ensures only { (p : Prefix6Type)
        → HasPrefix6 key.now (table_view table.now) p
        → IsSomeAnd result (λ q. (q.bits ≡ p.bits) × (q.len ≡ p.len)) }
{
    read_prefix6(text_at(table, key)?.as_bytes()).ok()
}

/// The default mapping rule whose prefix stands at a key.
pub(crate) fn dmr_at(table: &Table, key: &str) -> Option<Dmr>
    ensures found { IfSome result (HasDmr key.now (table_view table.now)) }
    ensures none { IfNone result ((d : DmrType) → HasDmr key.now (table_view table.now) d → ⊥) }
{
    Dmr::new(prefix6_at(table, key)?)
}
