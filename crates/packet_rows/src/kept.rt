//! Octets, names and parcels: what is put in is what is found.

use octets::{Name, Parcel, Parcels};
use rows::{RowFault, Said, Words};
use std::alloc::Global;

/// The octets of two words behind one another, with one octet more, and a copy of them all.
fn octets(alloc: Global, words: &mut Words<'_>, said: &mut Said) -> Result<(), RowFault> {
    let mut kept = words.octets(alloc)?;
    let others = words.octets(alloc)?;
    kept.extend(others.as_slice())?;
    kept.push(words.eight()?)?;
    said.octets(kept.copy(alloc)?.as_slice())?;
    said.octets(kept.as_slice())
}

fn copied(alloc: Global, words: &mut Words<'_>, said: &mut Said) -> Result<(), RowFault> {
    let kept = words.octets(alloc)?;
    said.octets(kept.copy(alloc)?.as_slice())
}

fn name(alloc: Global, words: &mut Words<'_>, said: &mut Said) -> Result<(), RowFault> {
    let name = Name::of(alloc, words.word()?)?;
    said.word(name.as_str())
}

fn say_parcels(parcels: &Parcels, said: &mut Said) -> Result<(), RowFault> {
    for parcel in parcels.as_slice() {
        said.number(parcel.place)?;
        said.octets(parcel.bytes.as_slice())?;
    }
    Ok(())
}

/// So many parcels, and a copy of them.
fn parcels(alloc: Global, words: &mut Words<'_>, said: &mut Said) -> Result<(), RowFault> {
    let mut parcels = Parcels::new(alloc);
    for _ in 0..words.eight()? {
        let place = words.number()?;
        let bytes = words.octets(alloc)?;
        parcels.push(Parcel { place, bytes })?;
    }
    said.word("kept")?;
    say_parcels(&parcels, said)?;
    said.word("copied")?;
    say_parcels(&parcels.copy(alloc)?, said)
}

pub fn answer(
    alloc: Global,
    call: &str,
    words: &mut Words<'_>,
    said: &mut Said,
) -> Result<(), RowFault> {
    match call {
        "octets" => octets(alloc, words, said),
        "copied" => copied(alloc, words, said),
        "name" => name(alloc, words, said),
        "parcels" => parcels(alloc, words, said),
        _ => Err(RowFault::NotARow),
    }
}
