ghost use Rattle.std.specs.Prelude.{◌≡◌, ◌≤◌, ◌⊎◌, List, All, length, IfOk, IfErr, IfSome};
ghost use Rattle.pcap_files.specs.declared.fault.CaptureFault.TheVariants.{NoMemory as OutOfMemory};
ghost use Rattle.pcap_files.specs.declared.records.Record.{Record as RecordType};
ghost use Rattle.pcap_files.specs.Grammar.{IsCapture, HasFault};
ghost use Rattle.pcap_files.specs.Written.{IsWritable};
ghost use Rattle.pcap_files.specs.Capture.{Gives, entry_len, record_of, records_at, capture};

use crate::entry::{CAPTURED, ENTRY_LEN, FRACTION, SECONDS};
use crate::form::{Form, HEADER_LEN};
use crate::frame::packet;
use crate::{CaptureFault, Record, Records};
use octets::{Bytes, NoMemory};
use std::alloc::Global;

/// The octets of the first record, if all of them stand there.
#[tactic(auto, unfolding(crate::specs::Capture::entry_len))]
fn len_of_first(form: Form, octets: &[u8]) -> Option<usize>
    ensures exact { result ≡ entry_len form octets.now }
    ensures least { IfSome result (λ len. 16 ≤ len) }
    ensures most { IfSome result (λ len. len ≤ length octets.now) }
{
    if octets.len() < ENTRY_LEN {
        return None;
    }
    let captured = form.order.u32_at(octets, CAPTURED) as usize;
    if octets.len() - ENTRY_LEN < captured {
        return None;
    }
    Some(ENTRY_LEN + captured)
}

/// The record that these octets are.
#[tactic(auto, unfolding(crate::specs::Capture::record_of))]
fn record_from(alloc: Global, form: Form, octets: &[u8]) -> Result<Record, NoMemory>
    requires { 16 ≤ length octets.now }
    ensures { IfOk result (λ r. r ≡ record_of form octets.now) }
{
    let seconds = u64::from(form.order.u32_at(octets, SECONDS));
    let micros = form.unit.micros(form.order.u32_at(octets, FRACTION));
    Ok(Record {
        time: seconds * 1_000_000 + u64::from(micros),
        bytes: Bytes::of(alloc, packet(form.link, &octets[ENTRY_LEN..]))?,
    })
}

/// The records that stand one after the other, at most `room` of them.
fn records_in(
    alloc: Global,
    form: Form,
    octets: &[u8],
    room: u32,
) -> Result<Vec<Record>, CaptureFault>
    ensures { Gives (λ v. v.items) result (records_at form 0 room octets.now) }
{
    let mut records = Vec::new(alloc);
    let mut rest = octets;
    for number in 0..room {
        if rest.is_empty() {
            return Ok(records);
        }
        let Some(len) = len_of_first(form, rest) else {
            return Err(CaptureFault::Cut(number));
        };
        let (first, after) = rest.split_at(len);
        records.push(record_from(alloc, form, first)?)?;
        rest = after;
    }
    if !rest.is_empty() {
        return Err(CaptureFault::TooManyRecords);
    }
    Ok(records)
}

/// The records of a capture, by the reading of its octets from left to right.
#[tactic(auto, unfolding(crate::specs::Capture::capture))]
fn records_of(alloc: Global, octets: &[u8], room: u32) -> Result<Records, CaptureFault>
    ensures { Gives (λ r. r) result (capture room octets.now) }
{
    let form = Form::read(octets)?;
    let (_header, entries) = octets.split_at(HEADER_LEN);
    let records = records_in(alloc, form, entries, room)?;
    Ok(Records::from_vec(records))
}

/// Reads a capture in the classic pcap format (draft-ietf-opsawg-pcap), with room for so many records:
/// in either byte order, with microseconds or nanoseconds, of raw IP packets or of Ethernet frames with
/// an IEEE 802.1Q tag or without. A nanosecond is dropped where it is no whole microsecond.
pub fn read(alloc: Global, octets: &[u8], room: u32) -> Result<Records, CaptureFault>
    // What is read is a capture of these records.
    ensures found { IfOk result (λ records. IsCapture room octets.now records) }
    // A capture is read, unless memory runs out.
    ensures only { (records : List RecordType) → IsCapture room octets.now records → Gives (λ r. r) result (Ok records) }

    // A fault is the first one from the left, unless memory runs out.
    ensures first_fault { IfErr result (λ fault. (fault ≡ OutOfMemory) ⊎ HasFault room octets.now fault) }
    // And each first fault is answered.
    ensures refused { (fault : CaptureFault) → HasFault room octets.now fault → Gives (λ r. r) result (Err fault) }

    // Both in one: what reading from left to right gives.
    ensures exact { Gives (λ r. r) result (capture room octets.now) }
    // Each record can be written again.
    ensures writable { IfOk result (All IsWritable) }
{
    records_of(alloc, octets, room)
}
