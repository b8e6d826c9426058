//! The names of edges.

ghost use Rattle.std.specs.Prelude.{◌≡◌, option_copied};
ghost use Rattle.std.specs.List.{list_all};
ghost use Rattle.toml.specs.View.{table_view};
ghost use Rattle.setup_tables.specs.EdgeName.{is_name_octet, is_edge_name, edge_name_at};

use crate::keys::text_at;
use toml::Table;

/// The most octets of a name.
const MOST_NAME: usize = 32;

/// Whether an octet may stand in an edge's name.
fn is_name_octet(octet: u8) -> bool
    ensures { result ≡ is_name_octet octet }
{
    octet.is_ascii_lowercase() || octet.is_ascii_digit() || octet == b'-'
}

/// Whether each octet may stand in an edge's name.
fn are_name_octets(text: &[u8]) -> bool
    ensures { result ≡ list_all is_name_octet text.now }
{
    text.iter().all(|octet| is_name_octet(*octet))
}

/// Whether a text is an edge's name.
fn is_edge_name(text: &[u8]) -> bool
    ensures { result ≡ is_edge_name text.now }
{
    !text.is_empty() && text.len() <= MOST_NAME && are_name_octets(text)
}

/// The edge's name at a key.
pub(crate) fn name_at<'a>(table: &'a Table, key: &str) -> Option<&'a str>
    ensures { option_copied result ≡ edge_name_at key.now (table_view table.now) }
{
    let name = text_at(table, key)?;
    if is_edge_name(name.as_bytes()) {
        Some(name)
    } else {
        None
    }
}
