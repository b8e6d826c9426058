//! What a trace tells of a record: the notes of its hops.
ghost use Rattle.std.specs.Prelude.{◌≡◌, map, IfOk, IsTrue};
ghost use Rattle.domain_core.specs.Form.{is_hop_written, is_journey_written};
ghost use Rattle.journeys.specs.declared.made.MadeHop.{MadeHop as MadeHopType};
ghost use Rattle.domain_run.specs.Items.{IsNoted, AreNoted};

use domain_core::{HopNote, HopNotes, Journey};
use journeys::MadeHop;
use octets::NoMemory;
use std::alloc::Global;

/// The note of a hop. It has a form where it names a node, and no stripe without a place.
fn written(note: HopNote) -> HopNote
    requires { IsNoted note }
    ensures told { result ≡ note }
    ensures form { IsTrue (is_hop_written result) }
{
    // each number is within its type, once it is at hand
    match (note.stripe, note.place) {
        (None, None) => note,
        (None, Some(_)) => note,
        (Some(_), None) => note,
        (Some(_), Some(_)) => note,
    }
}

/// What a trace tells of a record of this number, which its one worker took, with these hops.
pub(crate) fn journey_of(alloc: Global, rec: u32, hops: &[MadeHop]) -> Result<Journey, NoMemory>
    requires { AreNoted hops.now }
    ensures told { IfOk result (λ journey. journey ≡ record { rec = rec; worker = 0; hops = map (λ (m : MadeHopType). m.note) hops.now }) }
    ensures form { IfOk result (λ journey. IsTrue (is_journey_written journey)) }
{
    let mut notes = HopNotes::new(alloc);
    for made in hops {
        notes.push(written(made.note))?;
    }
    Ok(Journey {
        rec,
        worker: 0,
        hops: notes,
    })
}
