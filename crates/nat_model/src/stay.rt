ghost use Rattle.std.specs.Prelude.{◌≡◌, Option, Some, None, IfOk};
ghost use Rattle.std.specs.List.{filter};
ghost use Rattle.std.specs.Option.{option_map};
ghost use Rattle.rule_book.specs.Holder.{holder_in};
ghost use Rattle.nat_model.specs.Binding.{is_unexpired, outlives};
ghost use Rattle.nat_model.specs.Machine.{same_holding, staying};

use crate::Binding;
use map_rules::EdgeId;
use octets::NoMemory;
use std::alloc::Global;

/// The bindings that stay when what the edge holds changes from `old` to `new`: without a holder none, with the same
/// address and port set all, and else those that are kept and whose port may be claimed.
#[tactic(auto, unfolding(crate::specs::Machine::staying))]
pub(crate) fn staying(
    alloc: Global,
    old: Option<EdgeId>,
    new: Option<EdgeId>,
    bindings: &[Binding],
) -> Result<Vec<Binding>, NoMemory>
    ensures { IfOk result (λ made. made.items ≡ staying (option_map holder_in old) (option_map holder_in new) bindings.now) }
{
    let Some(new) = new else {
        return Ok(Vec::new(alloc));
    };
    if let Some(old) = old {
        if same_holding(&old, &new) {
            return Ok(Vec::from_slice(alloc, bindings)?);
        }
    }
    outliving(alloc, &new, bindings)
}

/// The bindings that outlive a change to what this edge holds.
fn outliving(alloc: Global, edge: &EdgeId, bindings: &[Binding]) -> Result<Vec<Binding>, NoMemory>
    ensures { IfOk result (λ made. made.items ≡ filter (outlives (holder_in edge.now)) bindings.now) }
{
    let made = bindings.iter().filter(|b| b.outlives(edge)).copied();
    Ok(made.collect(alloc)?)
}

/// The bindings whose deadline is still to come at this time.
pub(crate) fn unexpired(
    alloc: Global,
    clock: u64,
    bindings: &[Binding],
) -> Result<Vec<Binding>, NoMemory>
    ensures { IfOk result (λ made. made.items ≡ filter (is_unexpired clock) bindings.now) }
{
    let made = bindings.iter().filter(|b| b.is_unexpired(clock)).copied();
    Ok(made.collect(alloc)?)
}

/// Whether two edges hold the same address and the same port set.
fn same_holding(old: &EdgeId, new: &EdgeId) -> bool
    ensures { result ≡ same_holding (holder_in old.now) (holder_in new.now) }
{
    old.addr == new.addr && old.ports == new.ports
}
