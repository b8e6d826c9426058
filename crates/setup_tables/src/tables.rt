//! The document that a configuration is, and its tables.

ghost use Rattle.std.specs.Prelude.{◌≡◌, ◌≤◌, codes, false, length, IfOk};
ghost use Rattle.toml.specs.View.{table_view};
ghost use Rattle.setup_tables.specs.Keys.{tables_at};
ghost use Rattle.setup_tables.specs.Answer.{Gives, the};
ghost use Rattle.setup_tables.specs.Rule.{IsRule};
ghost use Rattle.setup_tables.specs.Edge.{IsEdge};
ghost use Rattle.setup_tables.specs.Forward.{IsForward};
ghost use Rattle.setup_tables.specs.Change.{IsChange};
ghost use Rattle.setup_tables.specs.Tables.{IsDocument, is_long, has_too_many, listed};

use crate::change::{ChangeTexts, read_changes};
use crate::domain::Domain;
use crate::edge::{Edges, read_edges};
use crate::forward::{ForwardTexts, read_forwards};
use crate::keys::tables_at;
use crate::rule::{RuleLines, read_lines};
use crate::{SetupCause, SetupFault};
use std::alloc::Global;
use std::str;
use toml::Table;

/// The most rules, the most edges, and the most forwards.
const MOST_TABLES: usize = 256;

/// The most changes.
const MOST_CHANGES: usize = 64;

/// What the tables of a configuration say, before any two of them are compared.
#[derive(Debug, Drop)]
pub struct Tables {
    /// `[domain]`.
    pub domain: Domain,
    /// Each `[[rule]]`.
    pub lines: RuleLines,
    /// Each `[[edge]]`.
    pub edges: Edges,
    /// Each `[[forward]]`.
    pub forwards: ForwardTexts,
    /// Each `[[change]]`.
    pub changes: ChangeTexts,
}

/// The document that the octets are.
fn document(alloc: Global, octets: &[u8]) -> Result<Table, SetupFault>
    ensures { Gives table_view result (the (IsDocument octets.now) (SetupFault.Refused SetupCause.NotToml 0)) }
{
    let Ok(text) = str::from_utf8(octets) else {
        return Err(SetupFault::Refused(SetupCause::NotToml, 0));
    };
    match toml::table_from_str(alloc, text) {
        Ok(table) => Ok(table),
        Err(fault) => {
            if fault.is_memory() {
                return Err(SetupFault::NoMemory);
            }
            Err(SetupFault::Refused(SetupCause::NotToml, 0))
        }
    }
}

/// Whether the list of tables at a key has more than so many.
fn is_long(most: usize, document: &Table, key: &str) -> bool
    ensures { result ≡ is_long most (tables_at key.now (table_view document.now)) }
{
    match tables_at(document, key) {
        Some(values) => values.len() > most,
        None => false,
    }
}

/// Whether the document has too many tables of a kind.
fn has_too_many(document: &Table) -> bool
    ensures { result ≡ has_too_many (table_view document.now) }
{
    is_long(MOST_TABLES, document, "rule")
        || is_long(MOST_TABLES, document, "edge")
        || is_long(MOST_TABLES, document, "forward")
        || is_long(MOST_CHANGES, document, "change")
}

/// What the document's rules say.
fn rule_lines(alloc: Global, document: &Table) -> Result<RuleLines, SetupFault>
    requires { is_long 256 (tables_at (codes "rule") (table_view document.now)) ≡ false }
    ensures few { IfOk result (λ lines. length lines ≤ 256) }
    ensures exact { Gives (λ l. l) result (listed SetupCause.BadRule IsRule (tables_at (codes "rule") (table_view document.now))) }
{
    let Some(values) = tables_at(document, "rule") else {
        return Err(SetupFault::Refused(SetupCause::BadRule, 0));
    };
    read_lines(alloc, values)
}

/// What the document's edges say.
fn edge_lines(alloc: Global, document: &Table) -> Result<Edges, SetupFault>
    requires { is_long 256 (tables_at (codes "edge") (table_view document.now)) ≡ false }
    ensures few { IfOk result (λ edges. length edges ≤ 256) }
    ensures exact { Gives (λ e. e) result (listed SetupCause.BadEdge IsEdge (tables_at (codes "edge") (table_view document.now))) }
{
    let Some(values) = tables_at(document, "edge") else {
        return Err(SetupFault::Refused(SetupCause::BadEdge, 0));
    };
    read_edges(alloc, values)
}

/// What the document's forwards say.
fn forward_texts(alloc: Global, document: &Table) -> Result<ForwardTexts, SetupFault>
    requires { is_long 256 (tables_at (codes "forward") (table_view document.now)) ≡ false }
    ensures few { IfOk result (λ texts. length texts ≤ 256) }
    ensures exact { Gives (λ t. t) result (listed SetupCause.BadForward IsForward (tables_at (codes "forward") (table_view document.now))) }
{
    let Some(values) = tables_at(document, "forward") else {
        return Err(SetupFault::Refused(SetupCause::BadForward, 0));
    };
    read_forwards(alloc, values)
}

/// What the document's changes say.
fn change_texts(alloc: Global, document: &Table) -> Result<ChangeTexts, SetupFault>
    requires { is_long 64 (tables_at (codes "change") (table_view document.now)) ≡ false }
    ensures few { IfOk result (λ texts. length texts ≤ 64) }
    ensures exact { Gives (λ t. t) result (listed SetupCause.BadChange IsChange (tables_at (codes "change") (table_view document.now))) }
{
    let Some(values) = tables_at(document, "change") else {
        return Err(SetupFault::Refused(SetupCause::BadChange, 0));
    };
    read_changes(alloc, values)
}

impl Tables {
    ghost use Rattle.setup_tables.specs.Tables.{tables_of, octets_tables};
    ghost use Rattle.setup_tables.specs.Few.{AreFew};

    /// What the tables of a document say, or the first that isn't as it should be.
    fn of(alloc: Global, document: &Table) -> Result<Tables, SetupFault>
        requires { has_too_many (table_view document.now) ≡ false }
        ensures few { IfOk result AreFew }
        ensures exact { Gives (λ tables. tables) result (tables_of (table_view document.now)) }
    {
        let domain = Domain::read(alloc, document)?;
        let lines = rule_lines(alloc, document)?;
        let edges = edge_lines(alloc, document)?;
        let forwards = forward_texts(alloc, document)?;
        let changes = change_texts(alloc, document)?;
        Ok(Tables {
            domain,
            lines,
            edges,
            forwards,
            changes,
        })
    }

    /// Reads the tables of a configuration. It is refused with its first fault: `Refused` with the first cause
    /// in the order of `SetupCause` over the whole file and its least place, as far as one table by itself has it.
    pub fn read(alloc: Global, octets: &[u8]) -> Result<Tables, SetupFault>
        ensures few { IfOk result AreFew }
        ensures exact { Gives (λ tables. tables) result (octets_tables octets.now) }
    {
        let document = document(alloc, octets)?;
        if has_too_many(&document) {
            return Err(SetupFault::Refused(SetupCause::TooMany, 0));
        }
        Tables::of(alloc, &document)
    }
}
