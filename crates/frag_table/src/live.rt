ghost use Rattle.std.specs.Prelude.{◌≡◌, ◌<◌, Bool, true, false, length, IfSome, IfNone};
ghost use Rattle.std.specs.List.{filter};
ghost use Rattle.frag_table.specs.Frag.{is_live};
ghost use Rattle.frag_table.specs.Place.{IsPlace, NoNote};

use crate::FragKey;
use crate::notes::Notes;

/// The place of the note of a key whose deadline is still to come.
pub(crate) fn place(notes: &Notes, clock: u64, key: &FragKey) -> Option<usize>
    ensures found { IfSome result (λ at. IsPlace clock key.now notes.now at) }
    ensures none { IfNone result (NoNote clock key.now notes.now) }
{
    for at in 0..notes.len() {
        let note = notes.get(at);
        if note.deadline > clock && note.key == *key {
            return Some(at);
        }
    }
    None
}

/// How many notes there are whose deadline is still to come.
pub(crate) fn count(notes: &Notes, clock: u64) -> usize
    ensures { result ≡ length (filter (is_live clock) notes.now) }
{
    let mut count = 0;
    for at in 0..notes.len() {
        if notes.get(at).deadline > clock {
            count += 1;
        }
    }
    count
}

/// Removes the notes whose deadline has come, with what they hold.
pub(crate) fn expire(notes: &mut Notes, clock: u64)
    ensures { notes.new ≡ filter (is_live clock) notes.old }
{
    let mut at = 0;
    while at < notes.len() {
        if notes.get(at).deadline > clock {
            at += 1;
        } else {
            notes.remove(at);
        }
    }
}
