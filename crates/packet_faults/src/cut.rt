//! IPv6 packets cut into fragments (RFC 8200, section 4.5).

ghost use Rattle.std.specs.Prelude.{◌≡◌, ◌+◌, ◌*◌, ◌<◌, ◌≤◌, ◌%◌, List, ℕ, length, IfOk};
ghost use Rattle.ip6_packet.specs.declared.head.Head6.{Head6 as Header};
ghost use Rattle.ip6_packet.specs.Fragment.{fragment_offset, more_fragments};
ghost use Rattle.ip6_packet.specs.Written.{written6, IsUpper};
ghost use Rattle.packet_faults.specs.Cut.{cut_for, step_of, piece_head, piece_payload, piece, AreCut, GiveAgain, EachFits, IsCuttable};

use ip6_packet::{Frag6, Head6};
use octets::{Bytes, NoMemory, Parcel, Parcels};
use std::alloc::Global;

/// Octets of a piece's headers: those of the IPv6 header, and of the Fragment Header.
const HEADERS_LEN: u16 = 48;
/// The unit of a fragment's offset, in octets.
const UNIT: u16 = 8;

/// The piece whose payload begins at this place of the packet's.
fn piece(
    alloc: Global,
    head: &Head6,
    payload: &[u8],
    at: usize,
    step: u16,
    id: u32,
) -> Result<Bytes, NoMemory>
    requires upper { IsUpper head.now.upper }
    requires within { at < length payload.now }
    requires room { fragment_offset head.now.frag * 8 + length payload.now ≤ 65535 }
    requires step { (0 < step) × (step ≤ 65527) }
    ensures { IfOk result (λ octets. octets ≡ (piece (record { head = head.now; payload = payload.now; step = step; id = id }) at).bytes) }
{
    let after = at + usize::from(step);
    let here = &payload[at..payload.len().min(after)];
    let head = Head6 {
        start: u32::from(HEADERS_LEN),
        length: here.len() as u16,
        frag: Some(Frag6 {
            offset: head.fragment_offset() + (at / usize::from(UNIT)) as u16,
            more: after < payload.len() || head.more_fragments(),
            id,
        }),
        left: None,
        ..*head
    };
    head.write(alloc, here)
}

/// The packet cut into fragments of at most `mtu6` octets, in order, each with the identification `id`
/// and place 0 (RFC 8200, section 4.5). Each has the largest multiple of 8 octets of payload that is at
/// most `mtu6 - 48`, the last has the rest. Offset and "more fragments" continue those of the packet.
pub fn cut6(alloc: Global, packet: &[u8], mtu6: u16, id: u32) -> Result<Parcels, NoMemory>
    requires written { (h : Header) × (payload : List ℕ) × IsCuttable h payload packet.now }
    requires longer { mtu6 < length packet.now }
    requires least { 1280 ≤ mtu6 }
    ensures cut { (h : Header) (payload : List ℕ) → IsCuttable h payload packet.now
        → IfOk result (λ pieces. AreCut (cut_for h payload mtu6 id) pieces) }
    // The pieces give the payload again.
    ensures again { (h : Header) (payload : List ℕ) → IsCuttable h payload packet.now
        → IfOk result (λ pieces. GiveAgain (cut_for h payload mtu6 id) (length pieces)) }
    ensures fits { (h : Header) (payload : List ℕ) → IsCuttable h payload packet.now → IfOk result (λ pieces. EachFits mtu6 pieces) }
{
    let Some(head) = Head6::read_embedded(packet) else {
        unreachable!();
    };
    let payload = head.payload(packet);
    let step = (mtu6 - HEADERS_LEN) / UNIT * UNIT;
    let mut pieces = Parcels::new(alloc);
    let mut at = 0;
    while at < payload.len() {
        pieces.push(Parcel {
            place: 0,
            bytes: piece(alloc, &head, payload, at, step, id)?,
        })?;
        at += usize::from(step);
    }
    Ok(pieces)
}
