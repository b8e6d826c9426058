//! Transport headers: what is read of them, and payloads with other ports and another sum.

ghost use Rattle.std.specs.Prelude.{◌≤◌, ◌↔◌, IsTrue, length};
ghost use Rattle.l4_headers.specs.Transport.{header_octets};

use l4_headers::{
    L4, Ports, accepted_l4, followed_by, followed_by_cut_tcp, read_l4, read_ports, set_l4,
};
use octets::Proto;
use rows::{RowFault, Said, Words};
use std::alloc::Global;

/// Octets of a TCP header, and of the others.
const TCP_HEADER: usize = 20;

const OTHER_HEADER: usize = 8;
/// Octets of a TCP header up to the end of its sum.
const TCP_SUM_END: usize = 18;

/// The next two words, which are ports.
pub fn ports_of(words: &mut Words<'_>) -> Result<Ports, RowFault> {
    Ok(Ports {
        src: words.sixteen()?,
        dst: words.sixteen()?,
    })
}

/// Says both ports.
pub fn say_ports(ports: Ports, said: &mut Said) -> Result<(), RowFault> {
    said.number(u64::from(ports.src))?;
    said.number(u64::from(ports.dst))
}

fn say_l4(l4: &L4, said: &mut Said) -> Result<(), RowFault> {
    say_ports(l4.ports, said)?;
    said.number(u64::from(l4.sum))?;
    said.number(u64::from(l4.flags))
}

/// Whether a header stands there.
fn stands(proto: Proto, payload: &[u8]) -> bool
    ensures { IsTrue result ↔ (header_octets proto ≤ length payload.now) }
{
    match proto {
        Proto::Tcp => payload.len() >= TCP_HEADER,
        Proto::Udp | Proto::Icmp => payload.len() >= OTHER_HEADER,
    }
}

fn read(alloc: Global, words: &mut Words<'_>, said: &mut Said) -> Result<(), RowFault> {
    let proto = words.proto()?;
    let whole = words.flag()?;
    let payload = words.octets(alloc)?;
    match read_l4(proto, payload.as_slice(), whole) {
        Ok(l4) => say_l4(&l4, said),
        Err(cause) => said.shown(&cause),
    }
}

fn accepted(alloc: Global, words: &mut Words<'_>, said: &mut Said) -> Result<(), RowFault> {
    let proto = words.proto()?;
    let whole = words.flag()?;
    let payload = words.octets(alloc)?;
    let payload = payload.as_slice();
    if read_l4(proto, payload, whole).is_err() {
        return said.word("unmet");
    }
    say_l4(&accepted_l4(proto, payload), said)
}

fn ports(alloc: Global, words: &mut Words<'_>, said: &mut Said) -> Result<(), RowFault> {
    let proto = words.proto()?;
    let payload = words.octets(alloc)?;
    let payload = payload.as_slice();
    if payload.len() < OTHER_HEADER {
        return said.word("unmet");
    }
    say_ports(read_ports(proto, payload), said)
}

fn set(alloc: Global, words: &mut Words<'_>, said: &mut Said) -> Result<(), RowFault> {
    let proto = words.proto()?;
    let payload = words.octets(alloc)?;
    let mut payload = Vec::from_slice(alloc, payload.as_slice())?;
    let ports = ports_of(words)?;
    let sum = words.sixteen()?;
    if !stands(proto, payload.as_slice()) {
        return said.word("unmet");
    }
    set_l4(proto, payload.as_mut_slice(), ports, sum);
    said.octets(payload.as_slice())
}

fn followed(alloc: Global, words: &mut Words<'_>, said: &mut Said) -> Result<(), RowFault> {
    let proto = words.proto()?;
    let front = words.octets(alloc)?;
    let payload = words.octets(alloc)?;
    let payload = payload.as_slice();
    let ports = ports_of(words)?;
    let sum = words.sixteen()?;
    if proto == Proto::Icmp || !stands(proto, payload) {
        return said.word("unmet");
    }
    said.octets(followed_by(front, proto, payload, ports, sum)?.as_slice())
}

fn followed_by_cut(alloc: Global, words: &mut Words<'_>, said: &mut Said) -> Result<(), RowFault> {
    let front = words.octets(alloc)?;
    let segment = words.octets(alloc)?;
    let segment = segment.as_slice();
    let ports = ports_of(words)?;
    let sum = words.sixteen()?;
    if segment.len() < TCP_SUM_END {
        return said.word("unmet");
    }
    said.octets(followed_by_cut_tcp(front, segment, ports, sum)?.as_slice())
}

pub fn answer(
    alloc: Global,
    call: &str,
    words: &mut Words<'_>,
    said: &mut Said,
) -> Result<(), RowFault> {
    match call {
        "read" => read(alloc, words, said),
        "accepted" => accepted(alloc, words, said),
        "ports" => ports(alloc, words, said),
        "set" => set(alloc, words, said),
        "followed" => followed(alloc, words, said),
        "followed_by_cut" => followed_by_cut(alloc, words, said),
        _ => Err(RowFault::NotARow),
    }
}
