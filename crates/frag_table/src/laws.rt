ghost use Rattle.std.specs.Prelude.{◌≡◌, ℕ, List, []};
ghost use Rattle.octets.specs.declared.parcel.Parcel.{Parcel};
ghost use Rattle.frag_table.specs.declared.answer.FragAnswer.TheVariants.{Released};
ghost use Rattle.frag_table.specs.declared.ask.FragAsk.{FragAsk};
ghost use Rattle.frag_table.specs.Bounds.{StepsKeepBounds};
ghost use Rattle.frag_table.specs.Frag.{frag};
ghost use Rattle.frag_table.specs.Kind.{IsFragAnswerTo};
ghost use Rattle.frag_table.specs.State.{FragState};

/// Whatever is asked, and when: there are never more than 256 notes, never more than 16 fragments wait in one, and
/// none waits where the ports are known. So the row for a first fragment serves notes with and without ports.
pub fn notes_keep_their_bounds()
    ensures { StepsKeepBounds }
{}

/// Law: whatever the notes are, and whenever it comes, a first fragment is noted, releases those that waited for it, of
/// which there is one at least, or finds no room; and a later one is told its ports, waits, or finds no room.
pub fn each_fragment_has_an_answer_of_its_kind()
    ensures kind { (s : FragState) (now place : ℕ) (ask : FragAsk) → IsFragAnswerTo ask (frag s now place ask).answer }
    ensures released { (s : FragState) (now place : ℕ) (ask : FragAsk) (parcels : List Parcel)
        → (frag s now place ask).answer ≡ Released parcels
        → ¬ (parcels ≡ []) }
{}
