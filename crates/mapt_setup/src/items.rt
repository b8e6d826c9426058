//! The items of a script, and their order.

ghost use Rattle.std.specs.Prelude.{◌≡◌, ◌≤◌, ◌++◌, length, IfOk, OnOk};
ghost use Rattle.std.specs.List.Sorted.{IsPermutation, IsSorted, IsStable};
ghost use Rattle.mapt_setup.specs.Script.{kind_of, edge_of, change_time, item_kind, item_edge, item_time, move_items, record_items, capture_items, all_items, order};

use crate::capture::{Capture, Side};
use crate::moves::MoveLine;
use crate::script::ScriptItem;
use octets::NoMemory;
use pcap_files::Record;
use std::alloc::Global;

/// What the records of a side are ordered by, after their time.
fn kind_of(side: Side) -> u8
    ensures { result ≡ kind_of side }
{
    match side {
        Side::Lan(_) => 1,
        Side::Access => 2,
        Side::Core => 3,
    }
}

/// And after that.
fn edge_of(side: Side) -> u32
    ensures { result ≡ edge_of side }
{
    match side {
        Side::Lan(edge) => edge,
        Side::Access | Side::Core => 0,
    }
}

/// The time of a change, by its number from 1.
fn change_time(changes: &[MoveLine], number: u32) -> u64
    ensures { result ≡ change_time changes.now number }
{
    match changes.get((number as usize).saturating_sub(1)) {
        Some(change) => change.at,
        None => 0,
    }
}

/// What an item is ordered by: its time, its kind and its edge. A change stands first.
fn key_of(changes: &[MoveLine], item: &ScriptItem) -> (u64, (u8, u32))
    ensures time { result.0 ≡ item_time changes.now item.now }
    ensures kind { result.1.0 ≡ item_kind item.now }
    ensures edge { result.1.1 ≡ item_edge item.now }
{
    match item {
        ScriptItem::Rec { side, time, .. } => (*time, (kind_of(*side), edge_of(*side))),
        ScriptItem::Move { number, .. } => (change_time(changes, *number), (0, 0)),
    }
}

/// Adds the changes, numbered from 1.
fn add_changes(items: &mut Vec<ScriptItem>, changes: &[MoveLine]) -> Result<(), NoMemory>
    requires { length changes.now ≤ 64 }
    ensures { OnOk result (items.new.items ≡ items.old.items ++ move_items 1 changes.now) }
{
    for (i, change) in changes.iter().enumerate() {
        items.push(ScriptItem::Move {
            number: i as u32 + 1,
            live: change.live,
        })?;
    }
    Ok(())
}

/// Adds the records of a side.
fn add_records(
    alloc: Global,
    items: &mut Vec<ScriptItem>,
    side: Side,
    records: &[Record],
) -> Result<(), NoMemory>
    ensures { OnOk result (items.new.items ≡ items.old.items ++ record_items side records.now) }
{
    items.reserve(records.len())?;
    for record in records {
        items.push(ScriptItem::Rec {
            side,
            time: record.time,
            bytes: record.bytes.copy(alloc)?,
        })?;
    }
    Ok(())
}

/// Adds the records of all captures.
fn add_captures(
    alloc: Global,
    items: &mut Vec<ScriptItem>,
    captures: &[Capture],
) -> Result<(), NoMemory>
    ensures { OnOk result (items.new.items ≡ items.old.items ++ capture_items captures.now) }
{
    for capture in captures {
        add_records(alloc, items, capture.side, capture.records.as_slice())?;
    }
    Ok(())
}

/// All changes and records in the order of a script.
pub(crate) fn in_order(
    alloc: Global,
    changes: &[MoveLine],
    captures: &[Capture],
) -> Result<Vec<ScriptItem>, NoMemory>
    requires { length changes.now ≤ 64 }
    ensures all { IfOk result (λ items. IsPermutation (all_items changes.now captures.now) items.items) }
    ensures sorted { IfOk result (λ items. IsSorted (order changes.now) items.items) }
    ensures stable { IfOk result (λ items. IsStable (order changes.now) (all_items changes.now captures.now) items.items) }
{
    let mut items = Vec::new(alloc);
    add_changes(&mut items, changes)?;
    add_captures(alloc, &mut items, captures)?;
    items.sort_by_cached_key(|item| key_of(changes, item))?;
    Ok(items)
}
