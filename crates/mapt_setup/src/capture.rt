ghost use Rattle.std.specs.Prelude.{◌≡◌, ◌↔◌, ◌<◌, IsTrue, nat_le, is_none, length, IfSome};
ghost use Rattle.std.specs.List.{list_all};
ghost use Rattle.pcap_files.specs.Written.{is_writable};
ghost use Rattle.mapt_setup.specs.Beside.{first_after};
ghost use Rattle.mapt_setup.specs.Fit.{is_side_of, same_side, has_side_of, records_count, most_records, is_fitting, FitsSetup};

use crate::setup::Setup;
use pcap_files::{Record, Records};

/// The most records of a script: those of all its captures together.
pub const MOST_RECORDS: u32 = 200_000;

/// Where a capture was made.
#[derive(Clone, Copy, Debug, PartialEq, Eq)]
pub enum Side {
    /// The LAN of the edge at this place among the edges, from 0.
    Lan(u32),
    /// The access network.
    Access,
    /// The core.
    Core,
}

/// What was read of one file.
#[derive(Debug, Drop)]
pub struct Capture {
    pub side: Side,
    pub records: Records,
}

/// Whether the side is one of the setup.
fn is_side_of(setup: &Setup, side: Side) -> bool
    ensures { result ≡ is_side_of setup.now side }
{
    match side {
        Side::Lan(edge) => (edge as usize) < setup.edges.as_slice().len(),
        Side::Access | Side::Core => true,
    }
}

/// Whether each side is one of the setup.
fn are_sides_of(setup: &Setup, captures: &[Capture]) -> bool
    ensures { result ≡ list_all (λ capture. is_side_of setup.now capture.side) captures.now }
{
    captures
        .iter()
        .all(|capture| is_side_of(setup, capture.side))
}

/// Whether two sides are the same.
fn same_side(side: Side, other: Side) -> bool
    ensures { result ≡ same_side side other }
{
    match (side, other) {
        (Side::Lan(edge), Side::Lan(another)) => edge == another,
        (Side::Access, Side::Access) | (Side::Core, Side::Core) => true,
        _ => false,
    }
}

/// Whether an earlier capture is of this one's side.
fn has_side_of(earlier: &[Capture], capture: &Capture) -> bool
    ensures { result ≡ has_side_of earlier.now capture.now }
{
    earlier
        .iter()
        .any(|other| same_side(other.side, capture.side))
}

/// The first capture of which that is true.
fn first_again(captures: &[Capture]) -> Option<usize>
    ensures { result ≡ first_after has_side_of captures.now }
{
    for i in 0..captures.len() {
        if has_side_of(&captures[..i], &captures[i]) {
            return Some(i);
        }
    }
    None
}

/// Whether there are no more records together than a script has.
fn are_few(captures: &[Capture]) -> bool
    ensures { result ≡ nat_le (records_count captures.now) most_records }
{
    let mut left = MOST_RECORDS as usize;
    for capture in captures {
        let count = capture.records.as_slice().len();
        if count > left {
            return false;
        }
        left -= count;
    }
    true
}

/// Whether a capture that is written can hold each of these.
fn are_writable(records: &[Record]) -> bool
    ensures { result ≡ list_all is_writable records.now }
{
    records.iter().all(|item| item.is_writable())
}

/// Whether it can hold each record of each capture.
fn are_all_writable(captures: &[Capture]) -> bool
    ensures { result ≡ list_all (λ capture. list_all is_writable capture.records) captures.now }
{
    captures
        .iter()
        .all(|capture| are_writable(capture.records.as_slice()))
}

/// Whether captures pass the tests of those that fit a setup.
fn passes(setup: &Setup, captures: &[Capture]) -> bool
    ensures { result ≡ is_fitting setup.now captures.now }
{
    are_sides_of(setup, captures)
        && first_again(captures).is_none()
        && are_few(captures)
        && are_all_writable(captures)
}

/// Whether captures fit a setup: each side is one of the setup and stands at most once, there are at most
/// 200,000 records together, and a capture that is written can hold each of them.
pub fn captures_fit(setup: &Setup, captures: &[Capture]) -> bool
    ensures { IsTrue result ↔ FitsSetup setup.now captures.now }
{
    passes(setup, captures)
}
