ghost use Rattle.std.specs.Prelude.{◌≡◌, ◌<◌, ◌^◌, ◌++◌, List, ℕ, length, OnOk, OnErr, IfOk};
ghost use Rattle.pcap_files.specs.Written.{empty_capture, entry_header, entry, IsWritableTime};

use crate::entry::{CAPTURED, ENTRY_LEN, FRACTION, ORIGINAL, SECONDS};
use crate::records::MOST_SECONDS;
use byteorder::{ByteOrder, LittleEndian};
use octets::{Bytes, NoMemory};
use std::alloc::Global;
use std::marker::Model;

/// The file header of every capture that is written: the magic number of microseconds with its lowest
/// octet first, version 2.4, time zone and accuracy 0, packets of at most 262144 octets, raw IP.
const HEADER: [u8; 24] = [
    0xd4, 0xc3, 0xb2, 0xa1, 2, 0, 4, 0, 0, 0, 0, 0, 0, 0, 0, 0, 0, 0, 4, 0, 101, 0, 0, 0,
];

/// A capture that is written record by record. A contract sees its octets.
#[derive(Debug, Drop)]
pub struct Writer {
    octets: Vec<u8>,
}

impl Model for Writer {
    ghost Value = { List ℕ };

    ghost view = { λ w. w.octets.items };
}

/// The octets before a record's packet of this length.
fn entry_header(time: u64, len: u32) -> [u8; ENTRY_LEN]
    requires { IsWritableTime time }
    ensures { result ≡ entry_header time len }
{
    let seconds = (time / 1_000_000).min(MOST_SECONDS);
    let mut header = [0; ENTRY_LEN];
    LittleEndian::write_u32(&mut header[SECONDS..], seconds as u32);
    LittleEndian::write_u32(&mut header[FRACTION..], (time - seconds * 1_000_000) as u32);
    LittleEndian::write_u32(&mut header[CAPTURED..], len);
    LittleEndian::write_u32(&mut header[ORIGINAL..], len);
    header
}

impl Writer {
    /// A capture without records.
    #[tactic(auto, unfolding(crate::specs::Written::empty_capture))]
    pub fn new(alloc: Global) -> Result<Writer, NoMemory>
        ensures { IfOk result (λ w. w ≡ empty_capture) }
    {
        Ok(Writer {
            octets: Vec::from_slice(alloc, &HEADER)?,
        })
    }

    /// Adds a record of this packet at the end. The time is in microseconds.
    pub fn add(&mut self, time: u64, packet: &[u8]) -> Result<(), NoMemory>
        requires time { IsWritableTime time }
        requires packet { length packet.now < 2 ^ 32 }
        ensures ok { OnOk result (self.new ≡ self.old ++ entry time packet.now) }
        ensures err { OnErr result (self.new ≡ self.old) }
    {
        let header = entry_header(time, packet.len() as u32);
        self.octets.reserve(ENTRY_LEN + packet.len())?;
        self.octets.extend_from_slice(&header)?;
        self.octets.extend_from_slice(packet)?;
        Ok(())
    }

    /// The octets of the capture, which take no more memory.
    pub fn into_bytes(self) -> Bytes
        ensures { result ≡ self }
    {
        Bytes::from_vec(self.octets)
    }

    /// The octets of the capture.
    pub fn as_slice(&self) -> &[u8]
        ensures { result.now ≡ self.now }
    {
        &self.octets
    }
}
