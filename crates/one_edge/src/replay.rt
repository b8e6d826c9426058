ghost use Rattle.std.specs.Prelude.{◌≡◌, ◌&&◌, Some, All, IfOk, IfSome, IfNone};
ghost use Rattle.octets.specs.declared.proto.Proto.TheVariants.{Tcp, Udp};
ghost use Rattle.pcap_files.specs.Written.{IsWritable};
ghost use Rattle.one_edge.specs.Edge.{edge_in};
ghost use Rattle.one_edge.specs.Served.{AreServed, AreReplayed, times_rise, is_of, same_source, first_of, follow, have_one_source};
ghost use Rattle.one_edge.specs.Crossed.{AreCaptured};

use crate::taken::Taken;
use crate::{Captures, OneEdge};
use octets::{NoMemory, Proto};
use pcap_files::{Record, Writer};
use std::alloc::Global;

/// Whether no record's time is less than the one before.
fn times_rise(records: &[Record]) -> bool
    ensures { result ≡ times_rise 0 records.now }
{
    let mut last = 0;
    for record in records {
        if record.time < last {
            return false;
        }
        last = record.time;
    }
    true
}

/// Whether the packet is one of this protocol.
fn is_of(proto: Proto, packet: &Taken) -> bool
    ensures { result ≡ is_of proto packet.now }
{
    match (proto, packet.proto) {
        (Proto::Tcp, Proto::Tcp) => true,
        (Proto::Udp, Proto::Udp) => true,
        (Proto::Icmp, Proto::Icmp) => true,
        _ => false,
    }
}

/// Whether both packets come from one address and port.
fn same_source(one: &Taken, other: &Taken) -> bool
    ensures { result ≡ same_source one.now other.now }
{
    one.head.src.0 == other.head.src.0 && one.ports.src == other.ports.src
}

/// The first packet of a protocol.
fn first_of(proto: Proto, packets: &[Taken]) -> Option<Taken>
    ensures { result ≡ first_of proto packets.now }
{
    for packet in packets {
        if is_of(proto, packet) {
            return Some(*packet);
        }
    }
    None
}

/// Whether each packet of the protocol has the source of this one.
fn all_follow(proto: Proto, first: &Taken, packets: &[Taken]) -> bool
    ensures { result ≡ follow proto (Some first.now) packets.now }
{
    for packet in packets {
        if is_of(proto, packet) && !same_source(first, packet) {
            return false;
        }
    }
    true
}

/// Whether each packet of the protocol has the source address and port of the first one.
fn have_one_source(proto: Proto, packets: &[Taken]) -> bool
    ensures { result ≡ have_one_source proto packets.now }
{
    match first_of(proto, packets) {
        Some(first) => all_follow(proto, &first, packets),
        None => true,
    }
}

/// Whether the packets of TCP come from one address and port, and those of UDP.
fn have_one_source_each(packets: &[Taken]) -> bool
    ensures { result ≡ (have_one_source Tcp packets.now && have_one_source Udp packets.now) }
{
    have_one_source(Proto::Tcp, packets) && have_one_source(Proto::Udp, packets)
}

impl OneEdge {
    /// What becomes of the records.
    fn captured(
        &self,
        alloc: Global,
        records: &[Record],
        packets: &[Taken],
    ) -> Result<Captures, NoMemory>
        requires served { AreServed (edge_in self.now) records.now packets.now }
        requires writable { All IsWritable records.now }
        ensures { IfOk result (λ made. AreCaptured (edge_in self.now) records.now made) }
    {
        let mut access = Writer::new(alloc)?;
        let mut core = Writer::new(alloc)?;
        for i in 0..records.len() {
            let record = &records[i];
            let crossed = self.crossed(alloc, record.bytes.as_slice(), &packets[i], i)?;
            access.add(record.time, crossed.access.as_slice())?;
            core.add(record.time, crossed.core.as_slice())?;
        }
        Ok(Captures { access, core })
    }

    /// The captures of the access network and of the core, for the records of the edge's LAN. None exactly where a packet
    /// isn't served, times fall, or a packet hasn't the source address and port of the first one of its protocol.
    pub fn replay(&self, alloc: Global, records: &[Record]) -> Result<Option<Captures>, NoMemory>
        requires { All IsWritable records.now }
        ensures served { IfOk result (λ found. IfSome found (λ made. AreReplayed (edge_in self.now) records.now)) }
        ensures captured { IfOk result (λ found. IfSome found (λ made. AreCaptured (edge_in self.now) records.now made)) }
        ensures refused { IfOk result (λ found. IfNone found (AreReplayed (edge_in self.now) records.now → ⊥)) }
    {
        let Some(packets) = self.all_taken(alloc, records)? else {
            return Ok(None);
        };
        if !times_rise(records) {
            return Ok(None);
        }
        if !have_one_source_each(&packets) {
            return Ok(None);
        }
        Ok(Some(self.captured(alloc, records, &packets)?))
    }
}
