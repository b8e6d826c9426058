ghost use Rattle.std.specs.Prelude.{◌≡◌, ℕ, ◌<◌, ◌^◌, IfOk, OnErr};
ghost use Rattle.frag_table.specs.Frag.{live_at, frag_now, freed_by};
ghost use Rattle.l4_headers.specs.declared.ports.Ports.{Ports as PortsType};
ghost use Rattle.frag_table.specs.Fragment.{frag_ask};
ghost use Rattle.frag_table.specs.Place.{IsPlace};
ghost use Rattle.frag_table.specs.declared.ask.FragAsk.TheVariants.{First, Later};

use crate::live::{count, place};
use crate::notes::Notes;
use crate::{FragAnswer, FragKey, Fragment, Note};
use l4_headers::Ports;
use octets::{Bytes, NoMemory, Parcel, Parcels};
use std::alloc::Global;

/// The most notes at a time.
const MOST_NOTES: usize = 256;

/// The most fragments that wait for one first fragment.
const MOST_HELD: usize = 16;

/// How long a note stays, in microseconds.
const NOTE_TIME: u64 = 60_000_000;

/// A fragment's coming: the time, under which place it waits where it has to, and where that takes memory.
#[derive(Clone, Copy)]
pub(crate) struct Arrival {
    pub(crate) clock: u64,
    pub(crate) place: u64,
    pub(crate) alloc: Global,
}

/// Takes a fragment. Notes whose deadline has come stay, and are not looked at.
pub(crate) fn take(
    notes: &mut Notes,
    arrival: Arrival,
    fragment: &Fragment<'_>,
) -> Result<FragAnswer, NoMemory>
    requires { arrival.clock < 2 ^ 63 }
    ensures step { IfOk result (λ answer. record { after = live_at arrival.clock notes.new; answer = answer }
        ≡ frag_now (live_at arrival.clock notes.old) arrival.place (frag_ask fragment.now)) }
    ensures err { OnErr result (notes.new ≡ notes.old) }
{
    match fragment {
        Fragment::First(key, ports) => first(notes, arrival, key, *ports),
        Fragment::Later(key, octets) => later(notes, arrival, key, octets),
    }
}

/// Takes a first fragment.
fn first(
    notes: &mut Notes,
    arrival: Arrival,
    key: &FragKey,
    ports: Ports,
) -> Result<FragAnswer, NoMemory>
    requires { arrival.clock < 2 ^ 63 }
    ensures step { IfOk result (λ answer. record { after = live_at arrival.clock notes.new; answer = answer }
        ≡ frag_now (live_at arrival.clock notes.old) 0 (First key.now ports)) }
    ensures err { OnErr result (notes.new ≡ notes.old) }
{
    if let Some(at) = place(notes, arrival.clock, key) {
        return Ok(release(notes, arrival, key, at, ports));
    }
    if count(notes, arrival.clock) >= MOST_NOTES {
        return Ok(FragAnswer::Full);
    }
    notes.push(Note {
        key: *key,
        deadline: arrival.clock + NOTE_TIME,
        ports: Some(ports),
        held: Parcels::new(arrival.alloc),
    })?;
    Ok(FragAnswer::Noted)
}

/// Takes a first fragment whose key has its note at this place: sets the ports, and releases what waits.
fn release(
    notes: &mut Notes,
    arrival: Arrival,
    key: &FragKey,
    at: usize,
    ports: Ports,
) -> FragAnswer
    requires { IsPlace arrival.clock key.now notes.old at }
    ensures { record { after = live_at arrival.clock notes.new; answer = result }
        ≡ frag_now (live_at arrival.clock notes.old) 0 (First key.now ports) }
{
    let held = notes.set_ports(arrival.alloc, at, ports);
    if held.as_slice().is_empty() {
        FragAnswer::Noted
    } else {
        FragAnswer::Released(held)
    }
}

/// Takes a later fragment.
fn later(
    notes: &mut Notes,
    arrival: Arrival,
    key: &FragKey,
    octets: &Bytes,
) -> Result<FragAnswer, NoMemory>
    requires { arrival.clock < 2 ^ 63 }
    ensures step { IfOk result (λ answer. record { after = live_at arrival.clock notes.new; answer = answer }
        ≡ frag_now (live_at arrival.clock notes.old) arrival.place (Later key.now octets.now)) }
    ensures err { OnErr result (notes.new ≡ notes.old) }
{
    if let Some(at) = place(notes, arrival.clock, key) {
        return wait(notes, arrival, key, at, octets);
    }
    if count(notes, arrival.clock) >= MOST_NOTES {
        return Ok(FragAnswer::Full);
    }
    let mut held = Parcels::new(arrival.alloc);
    held.push(parcel(arrival, octets)?)?;
    notes.push(Note {
        key: *key,
        deadline: arrival.clock + NOTE_TIME,
        ports: None,
        held,
    })?;
    Ok(FragAnswer::Held)
}

/// Takes a later fragment whose key has its note at this place.
fn wait(
    notes: &mut Notes,
    arrival: Arrival,
    key: &FragKey,
    at: usize,
    octets: &Bytes,
) -> Result<FragAnswer, NoMemory>
    requires { IsPlace arrival.clock key.now notes.old at }
    ensures step { IfOk result (λ answer. record { after = live_at arrival.clock notes.new; answer = answer }
        ≡ frag_now (live_at arrival.clock notes.old) arrival.place (Later key.now octets.now)) }
    ensures err { OnErr result (notes.new ≡ notes.old) }
{
    let note = notes.get(at);
    if let Some(ports) = note.ports {
        return Ok(FragAnswer::Known(ports));
    }
    if note.held.as_slice().len() >= MOST_HELD {
        return Ok(FragAnswer::Full);
    }
    notes.hold(at, parcel(arrival, octets)?)?;
    Ok(FragAnswer::Held)
}

/// A fragment that waits, under the place of its step.
fn parcel(arrival: Arrival, octets: &Bytes) -> Result<Parcel, NoMemory>
    ensures { IfOk result (λ made. made ≡ record { place = arrival.place; bytes = octets.now }) }
{
    Ok(Parcel {
        place: arrival.place,
        bytes: octets.copy(arrival.alloc)?,
    })
}

/// A copy of the parcels that wait for a first fragment of this key.
pub(crate) fn waiting(
    alloc: Global,
    notes: &Notes,
    clock: u64,
    key: &FragKey,
) -> Result<Parcels, NoMemory>
    ensures { IfOk result (λ parcels. (step : ℕ) (ports : PortsType) →
        parcels ≡ freed_by (frag_now (live_at clock notes.now) step (First key.now ports)).answer) }
{
    match place(notes, clock, key) {
        Some(at) => notes.get(at).held.copy(alloc),
        None => Ok(Parcels::new(alloc)),
    }
}
