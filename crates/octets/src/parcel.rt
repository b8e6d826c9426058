ghost use Rattle.std.specs.Prelude.{◌≡◌, [], IsOk, IfOk};

use crate::{Bytes, List, NoMemory};
use std::alloc::Global;

/// A packet that waits, under the place of the step that held it.
#[derive(Debug, Drop)]
pub struct Parcel {
    pub place: u64,
    pub bytes: Bytes,
}

/// Parcels in their order.
pub type Parcels = List<Parcel>;

impl List<Parcel> {
    /// The same parcels once more. A copy of no parcels takes no memory.
    pub fn copy(&self, alloc: Global) -> Result<Parcels, NoMemory>
        ensures same { IfOk result (λ copied. copied ≡ self.now) }
        ensures empty { self.now ≡ [] → IsOk result }
    {
        let mut copied = Parcels::new(alloc);
        for parcel in self.as_slice() {
            copied.push(Parcel {
                place: parcel.place,
                bytes: parcel.bytes.copy(alloc)?,
            })?;
        }
        Ok(copied)
    }
}
