//! What an edge asks its machine, and what the machine answers.

ghost use Rattle.std.specs.Prelude.{IsTrue, ◌<◌};
ghost use Rattle.edge_node.specs.Hop.{IsAnswerAt};

use crate::drawn::{parcels, refusal};
use crate::notes::say_key;
use crate::sent::say_proto;
use edge_node::Way;
use nat_model::{Answer, Ask, End4, Far, Part};
use octets::{Addr4, Addr6};
use rows::{RowFault, Said, Words};
use std::alloc::Global;

/// `out ADDRESS PORT SOURCE6 DESTINATION6 FREED`, behind its first word.
fn out(alloc: Global, words: &mut Words<'_>) -> Result<Answer, RowFault> {
    let from = words.addr4()?;
    let port = words.sixteen()?;
    let src6 = words.addr6()?;
    let dst6 = words.addr6()?;
    let freed = parcels(alloc, words)?;
    Ok(Answer::Out {
        from,
        port,
        src6,
        dst6,
        freed,
    })
}

/// `turn ADDRESS PORT FREED`, behind its first word.
fn turn(alloc: Global, words: &mut Words<'_>) -> Result<Answer, RowFault> {
    let from = words.addr4()?;
    let port = words.sixteen()?;
    let freed = parcels(alloc, words)?;
    Ok(Answer::Turn { from, port, freed })
}

/// `in HOST PORT SOURCE4 PEER4 FREED`, behind its first word.
fn inward(alloc: Global, words: &mut Words<'_>) -> Result<Answer, RowFault> {
    let to = words.addr4()?;
    let port = words.sixteen()?;
    let from = words.addr4()?;
    let peer = words.addr4()?;
    let freed = parcels(alloc, words)?;
    Ok(Answer::In {
        to,
        port,
        from,
        peer,
        freed,
    })
}

/// `kept PORT UNTIL`, behind its first word.
fn kept(words: &mut Words<'_>) -> Result<Answer, RowFault> {
    let port = words.sixteen()?;
    let until = words.number()?;
    Ok(Answer::Kept { port, until })
}

/// `refused CAUSE FREED`, behind its first word.
fn refused(alloc: Global, words: &mut Words<'_>) -> Result<Answer, RowFault> {
    let cause = refusal(words)?;
    let freed = parcels(alloc, words)?;
    Ok(Answer::Refused { cause, freed })
}

/// The machine's answer that this word begins.
pub fn answer(alloc: Global, word: &str, words: &mut Words<'_>) -> Result<Answer, RowFault> {
    match word {
        "out" => out(alloc, words),
        "turn" => turn(alloc, words),
        "in" => inward(alloc, words),
        "kept" => kept(words),
        "held" => Ok(Answer::Held),
        "refused" => refused(alloc, words),
        _ => Err(RowFault::NotARow),
    }
}

/// Whether a packet of this way may have the answer.
pub fn is_answer_at(way: Way, answer: &Answer) -> bool
    ensures { IsTrue result → IsAnswerAt way answer.now }
{
    match answer {
        Answer::Out { .. } | Answer::Turn { .. } => matches!(way, Way::Lan),
        Answer::In { .. } => matches!(way, Way::Access | Way::Turned),
        Answer::Held => true,
        Answer::Refused { cause, .. } => {
            let number = cause.number();
            14 <= number && number <= 21
        }
        Answer::Kept { .. } => false,
    }
}

/// Says which part of a packet it is.
fn say_part(alloc: Global, said: &mut Said, part: &Part) -> Result<(), RowFault> {
    match part {
        Part::Whole => said.word("whole"),
        Part::First(key) => {
            said.word("first")?;
            say_key(alloc, said, key)
        }
        Part::Later(key, octets) => {
            said.word("later")?;
            say_key(alloc, said, key)?;
            said.octets(octets.as_slice())
        }
    }
}

/// Says an end of a flow.
fn say_end(alloc: Global, said: &mut Said, end: &End4) -> Result<(), RowFault> {
    said.addr4(alloc, end.addr)?;
    said.number(u64::from(end.port))
}

/// Says the addresses of an inward packet over IPv6.
fn say_six(
    alloc: Global,
    said: &mut Said,
    dst: Addr6,
    src: Addr6,
    peer: Addr6,
) -> Result<(), RowFault> {
    said.word("six")?;
    said.addr6(alloc, dst)?;
    said.addr6(alloc, src)?;
    said.addr6(alloc, peer)
}

/// Says those of a packet that the edge turned.
fn say_turned(
    alloc: Global,
    said: &mut Said,
    dst: Addr4,
    src: Addr4,
    peer: Addr4,
) -> Result<(), RowFault> {
    said.word("turned")?;
    said.addr4(alloc, dst)?;
    said.addr4(alloc, src)?;
    said.addr4(alloc, peer)
}

/// Says the far end of an inward packet: its destination, source and peer, and the port.
fn say_far(alloc: Global, said: &mut Said, far: &Far) -> Result<(), RowFault> {
    match far {
        Far::Six {
            dst,
            src,
            peer,
            port,
        } => {
            say_six(alloc, said, *dst, *src, *peer)?;
            said.number(u64::from(*port))
        }
        Far::Turned {
            dst,
            src,
            peer,
            port,
        } => {
            say_turned(alloc, said, *dst, *src, *peer)?;
            said.number(u64::from(*port))
        }
    }
}

/// Says what is asked about a packet: whether it is an error, its protocol, its ends, the flags and the part.
pub fn say_ask(alloc: Global, said: &mut Said, ask: &Ask) -> Result<(), RowFault> {
    match ask {
        Ask::Outward {
            fault,
            proto,
            near,
            far,
            flags,
            part,
        } => {
            said.word("outward")?;
            said.flag(*fault)?;
            say_proto(said, *proto)?;
            say_end(alloc, said, near)?;
            say_end(alloc, said, far)?;
            said.number(u64::from(*flags))?;
            say_part(alloc, said, part)
        }
        Ask::Inward {
            fault,
            proto,
            port,
            far,
            flags,
            part,
        } => {
            said.word("inward")?;
            said.flag(*fault)?;
            say_proto(said, *proto)?;
            said.number(u64::from(*port))?;
            say_far(alloc, said, far)?;
            said.number(u64::from(*flags))?;
            say_part(alloc, said, part)
        }
        Ask::Keep { .. } => Err(RowFault::NotARow),
    }
}
