//! What a machine answers, in words.

use crate::fragments::say_parcels;
use nat_model::Answer;
use octets::{Addr4, Addr6, Parcels};
use rows::{RowFault, Said};
use std::alloc::Global;

/// Says `out`, the address, the port and the IPv6 addresses of a packet that goes to the access network.
fn say_out(
    alloc: Global,
    from: Addr4,
    port: u16,
    ends: (Addr6, Addr6),
    said: &mut Said,
) -> Result<(), RowFault> {
    said.word("out")?;
    said.addr4(alloc, from)?;
    said.number(u64::from(port))?;
    said.addr6(alloc, ends.0)?;
    said.addr6(alloc, ends.1)
}

/// Says `in`, the host, its port, and the addresses from which a packet comes and with which its flow is.
fn say_in(
    alloc: Global,
    to: Addr4,
    port: u16,
    remote: (Addr4, Addr4),
    said: &mut Said,
) -> Result<(), RowFault> {
    said.word("in")?;
    said.addr4(alloc, to)?;
    said.number(u64::from(port))?;
    said.addr4(alloc, remote.0)?;
    said.addr4(alloc, remote.1)
}

/// Says `turn`, the address and the port.
fn say_turn(alloc: Global, from: Addr4, port: u16, said: &mut Said) -> Result<(), RowFault> {
    said.word("turn")?;
    said.addr4(alloc, from)?;
    said.number(u64::from(port))
}

/// Says an answer without what it frees, which is handed back.
fn say_without_parcels<'a>(
    alloc: Global,
    answer: &'a Answer,
    said: &mut Said,
) -> Result<Option<&'a Parcels>, RowFault> {
    match answer {
        Answer::Out {
            from,
            port,
            src6,
            dst6,
            freed,
        } => {
            say_out(alloc, *from, *port, (*src6, *dst6), said)?;
            Ok(Some(freed))
        }
        Answer::Turn { from, port, freed } => {
            say_turn(alloc, *from, *port, said)?;
            Ok(Some(freed))
        }
        Answer::In {
            to,
            port,
            from,
            peer,
            freed,
        } => {
            say_in(alloc, *to, *port, (*from, *peer), said)?;
            Ok(Some(freed))
        }
        Answer::Kept { port, until } => {
            said.word("kept")?;
            said.number(u64::from(*port))?;
            said.number(*until)?;
            Ok(None)
        }
        Answer::Held => {
            said.word("held")?;
            Ok(None)
        }
        Answer::Refused { cause, freed } => {
            said.word("refused")?;
            said.shown(cause)?;
            Ok(Some(freed))
        }
    }
}

/// Says an answer, and the place and octets of each parcel that it frees.
pub(crate) fn say_answer(alloc: Global, answer: &Answer, said: &mut Said) -> Result<(), RowFault> {
    match say_without_parcels(alloc, answer, said)? {
        Some(freed) => say_parcels(freed, said),
        None => Ok(()),
    }
}
