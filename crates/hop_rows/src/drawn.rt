//! Values that several calls take, from the words of a row.

use l4_headers::Ports;
use octets::{Bytes, Cause, Fault, Mtus, Parcel, Parcels};
use rows::{RowFault, Words};
use std::alloc::Global;

/// The MTUs of both sides: of IPv4 and of IPv6. None where one isn't 1280 to 9000.
pub fn mtus(words: &mut Words<'_>) -> Result<Option<Mtus>, RowFault> {
    let mtu4 = words.sixteen()?;
    let mtu6 = words.sixteen()?;
    if mtu4 < 1280 || mtu4 > 9000 || mtu6 < 1280 || mtu6 > 9000 {
        return Ok(None);
    }
    Ok(Some(Mtus { mtu4, mtu6 }))
}

/// Two ports: the source's and the destination's.
pub fn ports(words: &mut Words<'_>) -> Result<Ports, RowFault> {
    let src = words.sixteen()?;
    let dst = words.sixteen()?;
    Ok(Ports { src, dst })
}

/// Fragments: how many, and the octets of each.
pub fn parcels(alloc: Global, words: &mut Words<'_>) -> Result<Parcels, RowFault> {
    let mut parcels = Parcels::new(alloc);
    for _ in 0..words.eight()? {
        let bytes = words.octets(alloc)?;
        parcels.push(Parcel { place: 0, bytes })?;
    }
    Ok(parcels)
}

/// The cause of this name, of those that a machine may refuse for, and of two that it may not.
pub fn refusal(words: &mut Words<'_>) -> Result<Cause, RowFault> {
    match words.word()? {
        "BadInner" => Ok(Cause::BadInner),
        "NoBasicRule" => Ok(Cause::NoBasicRule),
        "WrongDestination" => Ok(Cause::WrongDestination),
        "FragmentsFull" => Ok(Cause::FragmentsFull),
        "Spoofed" => Ok(Cause::Spoofed),
        "NotDefault" => Ok(Cause::NotDefault),
        "NoOwner" => Ok(Cause::NoOwner),
        "NoBinding" => Ok(Cause::NoBinding),
        "NoPort" => Ok(Cause::NoPort),
        "TtlSpent" => Ok(Cause::TtlSpent),
        _ => Err(RowFault::NotARow),
    }
}
