//! What a call answers, in words.

use hops::{Hop, Out};
use octets::{Bytes, Cause, Fault, NoMemory, Proto};
use rows::{RowFault, Said};

/// Says a packet that a hop sends: where to, and its octets.
pub fn say_out(said: &mut Said, out: &Out) -> Result<(), RowFault> {
    let (exit, octets) = match out {
        Out::Lan(octets) => ("lan", octets),
        Out::Access(octets) => ("access", octets),
        Out::Core(octets) => ("core", octets),
        Out::Turn(octets) => ("turn", octets),
    };
    said.word(exit)?;
    said.octets(octets.as_slice())
}

/// Says that a packet is dropped for this cause.
pub fn say_drop(said: &mut Said, cause: Cause) -> Result<(), RowFault> {
    said.word("drop")?;
    said.shown(&cause)
}

/// Says a hop: each packet that it sends, and then each cause for which it drops one; `nothing` where it does neither.
pub fn say_hop(said: &mut Said, hop: &Hop) -> Result<(), RowFault> {
    let outs = hop.outs.as_slice();
    let drops = hop.drops.as_slice();
    if outs.is_empty() && drops.is_empty() {
        return said.word("nothing");
    }
    for out in outs {
        say_out(said, out)?;
    }
    for cause in drops {
        say_drop(said, *cause)?;
    }
    Ok(())
}

/// Says the octets of a packet that was written.
pub fn say_written(said: &mut Said, written: Result<Bytes, NoMemory>) -> Result<(), RowFault> {
    said.octets(written?.as_slice())
}

/// Says the cause of a fault. Want of memory is a fault of the row.
pub fn say_fault(said: &mut Said, fault: Fault) -> Result<(), RowFault> {
    match fault {
        Fault::Drop(cause) => say_drop(said, cause),
        Fault::NoMemory => Err(RowFault::NoMemory),
    }
}

/// Says that the call's condition isn't met, so that it wasn't made.
pub fn say_unmet(said: &mut Said) -> Result<(), RowFault> {
    said.word("unmet")
}

/// Says a protocol.
pub fn say_proto(said: &mut Said, proto: Proto) -> Result<(), RowFault> {
    said.word(match proto {
        Proto::Tcp => "tcp",
        Proto::Udp => "udp",
        Proto::Icmp => "icmp",
    })
}
