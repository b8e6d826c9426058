//! What edges that stand beside one another may not have.

ghost use Rattle.std.specs.Prelude.{◌≡◌, ◌<◌, ◌≤◌, length, IfSome};
ghost use Rattle.std.specs.List.{list_any, position};
ghost use Rattle.rule_book.specs.Overlap.{overlaps6};
ghost use Rattle.mapt_setup.specs.Beside.{first_after};
ghost use Rattle.mapt_setup.specs.Crowd.{has_name_of, is_crowded, is_over, edge_fault};

use map_rules::Dmr;
use octets::Prefix6;
use setup_tables::{EdgeLine, SetupCause, SetupFault};

/// The longest prefix of an edge.
const MOST_PREFIX: u8 = 64;

/// Whether two prefixes have an address in common.
fn overlaps(prefix: &Prefix6, other: &Prefix6) -> bool
    ensures { result ≡ overlaps6 prefix.now other.now }
{
    prefix.begins(other) || other.begins(prefix)
}

/// Whether a prefix overlaps that of an earlier edge.
fn overlaps_any(earlier: &[EdgeLine], prefix: &Prefix6) -> bool
    ensures { result ≡ list_any (λ other. overlaps6 other.prefix prefix.now) earlier.now }
{
    earlier.iter().any(|other| overlaps(&other.prefix, prefix))
}

/// Whether an earlier edge has this one's name.
fn has_name_of(earlier: &[EdgeLine], edge: &EdgeLine) -> bool
    ensures { result ≡ has_name_of earlier.now edge.now }
{
    let name = edge.name.as_slice();
    earlier.iter().any(|other| other.name.as_slice() == name)
}

/// Whether an edge's prefix is too long or overlaps that of an earlier one.
fn is_crowded(earlier: &[EdgeLine], edge: &EdgeLine) -> bool
    ensures { result ≡ is_crowded earlier.now edge.now }
{
    edge.prefix.len > MOST_PREFIX || overlaps_any(earlier, &edge.prefix)
}

/// The first edge that has the name of an earlier one.
fn first_named_again(edges: &[EdgeLine]) -> Option<usize>
    ensures place { result ≡ first_after has_name_of edges.now }
    ensures within { IfSome result (λ i. i < length edges.now) }
{
    for i in 0..edges.len() {
        if has_name_of(&edges[..i], &edges[i]) {
            return Some(i);
        }
    }
    None
}

/// The first edge whose prefix is too long or overlaps that of an earlier one.
fn first_crowded(edges: &[EdgeLine]) -> Option<usize>
    ensures place { result ≡ first_after is_crowded edges.now }
    ensures within { IfSome result (λ i. i < length edges.now) }
{
    for i in 0..edges.len() {
        if is_crowded(&edges[..i], &edges[i]) {
            return Some(i);
        }
    }
    None
}

/// Whether an edge's prefix overlaps that of the default mapping rule.
fn first_over(edges: &[EdgeLine], dmr: &Dmr) -> Option<usize>
    ensures { result ≡ position (is_over dmr.now) edges.now }
{
    edges
        .iter()
        .position(|edge| overlaps(&edge.prefix, &dmr.prefix))
}

/// The first thing that is wrong with edges beside one another and beside the default mapping rule.
pub(crate) fn edge_fault(edges: &[EdgeLine], dmr: &Dmr) -> Option<SetupFault>
    requires { length edges.now ≤ 256 }
    ensures { result ≡ edge_fault edges.now dmr.now }
{
    if let Some(i) = first_named_again(edges) {
        return Some(SetupFault::Refused(SetupCause::EdgeName, i as u32));
    }
    if let Some(i) = first_crowded(edges) {
        return Some(SetupFault::Refused(SetupCause::EdgeOverlap, i as u32));
    }
    let i = first_over(edges, dmr)?;
    Some(SetupFault::Refused(SetupCause::EdgeOverDmr, i as u32))
}
