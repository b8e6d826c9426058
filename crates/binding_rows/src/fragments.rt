//! Fragments in words: keys, ports, asks, parcels and answers.

use frag_table::{FragAnswer, FragAsk, FragKey};
use l4_headers::Ports;
use octets::Parcels;
use rows::{RowFault, Said, Words};
use std::alloc::Global;

/// The next words as a key: the way, the addresses as IPv6 texts, the protocol and the identification.
pub(crate) fn read_key(words: &mut Words<'_>) -> Result<FragKey, RowFault> {
    let way = words.eight()?;
    let src = words.addr6()?.0;
    let dst = words.addr6()?.0;
    let proto = words.eight()?;
    let id = words.thirty_two()?;
    Ok(FragKey {
        way,
        src,
        dst,
        proto,
        id,
    })
}

/// The next words as a fragment that is taken: `first KEY SOURCE DESTINATION`, by its ports, or `later KEY OCTETS`.
pub(crate) fn read_fragment(alloc: Global, words: &mut Words<'_>) -> Result<FragAsk, RowFault> {
    match words.word()? {
        "first" => {
            let key = read_key(words)?;
            let src = words.sixteen()?;
            let dst = words.sixteen()?;
            Ok(FragAsk::First(key, Ports { src, dst }))
        }
        "later" => {
            let key = read_key(words)?;
            Ok(FragAsk::Later(key, words.octets(alloc)?))
        }
        _ => Err(RowFault::NotARow),
    }
}

/// Says a key as it is read.
pub(crate) fn say_key(alloc: Global, key: &FragKey, said: &mut Said) -> Result<(), RowFault> {
    said.number(u64::from(key.way))?;
    said.addr6(alloc, octets::Addr6(key.src))?;
    said.addr6(alloc, octets::Addr6(key.dst))?;
    said.number(u64::from(key.proto))?;
    said.number(u64::from(key.id))
}

/// Says ports, the source's first.
fn say_ports(ports: Ports, said: &mut Said) -> Result<(), RowFault> {
    said.number(u64::from(ports.src))?;
    said.number(u64::from(ports.dst))
}

/// Says a fragment that is taken as it is read.
pub(crate) fn say_fragment(alloc: Global, ask: &FragAsk, said: &mut Said) -> Result<(), RowFault> {
    match ask {
        FragAsk::First(key, ports) => {
            said.word("first")?;
            say_key(alloc, key, said)?;
            say_ports(*ports, said)
        }
        FragAsk::Later(key, octets) => {
            said.word("later")?;
            say_key(alloc, key, said)?;
            said.octets(octets.as_slice())
        }
    }
}

/// Says parcels: `freed`, the place and the octets of each.
pub(crate) fn say_parcels(parcels: &Parcels, said: &mut Said) -> Result<(), RowFault> {
    for parcel in parcels.as_slice() {
        said.word("freed")?;
        said.number(parcel.place)?;
        said.octets(parcel.bytes.as_slice())?;
    }
    Ok(())
}

/// Says parcels that a step would free, or `none`.
pub(crate) fn say_waiting(parcels: &Parcels, said: &mut Said) -> Result<(), RowFault> {
    if parcels.as_slice().is_empty() {
        return said.word("none");
    }
    say_parcels(parcels, said)
}

/// Says what a fragment is told.
pub(crate) fn say_told(answer: &FragAnswer, said: &mut Said) -> Result<(), RowFault> {
    match answer {
        FragAnswer::Noted => said.word("noted"),
        FragAnswer::Known(ports) => {
            said.word("known")?;
            say_ports(*ports, said)
        }
        FragAnswer::Held => said.word("held"),
        FragAnswer::Released(parcels) => {
            said.word("released")?;
            say_parcels(parcels, said)
        }
        FragAnswer::Full => said.word("full"),
    }
}
