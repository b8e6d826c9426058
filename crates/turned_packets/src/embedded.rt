//! The packet that a turned ICMP error embeds (RFC 792; RFC 5508, section 4.2), changed in place.

ghost use Rattle.std.specs.Prelude.{◌≡◌, ◌+◌, ◌≤◌, IfOk, length};
ghost use Rattle.octets.specs.Field.{with_word};
ghost use Rattle.icmp_messages.specs.Inner.{IsInner4};
ghost use Rattle.turned_packets.specs.Embedded.{with_quad, sum_place, embedded_header, embedded_transport, embedded_sum, turned_embedded};
ghost use Rattle.turned_packets.specs.Inside.{new_end_in};

use crate::ends::NewEnd;
use crate::layout::{address_place, port_place, sum_place};
use crate::segment::{changed_sum, end_words};
use byteorder::{BigEndian, ByteOrder};
use icmp_messages::Inner4;
use inet_sum::adjust;
use ip4_packet::{Head4, SUM_AT};
use l4_headers::address_sum4;
use octets::{Bytes, NoMemory, word_at};
use std::alloc::Global;

/// Writes a number of 16 bits at this place.
fn set_word(octets: &mut [u8], at: usize, number: u16)
    requires { at + 2 ≤ length octets.old }
    ensures word { octets.new ≡ with_word at number octets.old }
    ensures length { length octets.new ≡ length octets.old }
{
    BigEndian::write_u16(&mut octets[at..], number);
}

/// Writes a number of 32 bits at this place.
fn set_quad(octets: &mut [u8], at: usize, number: u32)
    requires { at + 4 ≤ length octets.old }
    ensures quad { octets.new ≡ with_quad at number octets.old }
    ensures length { length octets.new ≡ length octets.old }
{
    BigEndian::write_u32(&mut octets[at..], number);
}

/// The header at the front of these octets.
fn turn_header(octets: &mut [u8], new: &NewEnd, head: &Head4)
    requires { 20 ≤ length octets.old }
    ensures turned { octets.new ≡ embedded_header (new_end_in new.now) head.now octets.old }
    ensures length { length octets.new ≡ length octets.old }
{
    let old_words = address_sum4(new.end.address_at(head));
    let new_words = address_sum4(new.addr);
    let sum = adjust(word_at(octets, SUM_AT), old_words, new_words);
    set_word(octets, SUM_AT, sum);
    set_quad(octets, address_place(new.end), new.addr.0);
}

/// The sum of the transport header with the new port.
fn embedded_sum(new: &NewEnd, inner: &Inner4, sum_at: usize) -> u16
    requires place { sum_at ≡ sum_place inner.now.proto }
    requires stands { sum_at + 2 ≤ length inner.now.payload }
    ensures { result ≡ embedded_sum (new_end_in new.now) inner.now }
{
    let end = new.end;
    let proto = inner.proto;
    let old_words = end_words(proto, end.address_at(&inner.head), end.port_at(inner.ports));
    let new_words = end_words(proto, new.addr, new.port);
    changed_sum(
        proto,
        word_at(inner.payload.as_slice(), sum_at),
        old_words,
        new_words,
    )
}

/// The transport header behind it.
fn turn_transport(octets: &mut [u8], new: &NewEnd, inner: &Inner4)
    requires long { 8 ≤ length inner.now.payload }
    requires stands { inner.now.head.head_len + length inner.now.payload ≤ length octets.old }
    ensures { octets.new ≡ embedded_transport (new_end_in new.now) inner.now octets.old }
{
    let start = usize::from(inner.head.head_len);
    let sum_at = sum_place(inner.proto);
    set_word(octets, start + port_place(inner.proto, new.end), new.port);
    if sum_at + 2 <= inner.payload.as_slice().len() {
        set_word(octets, start + sum_at, embedded_sum(new, inner, sum_at));
    }
}

/// The octets that begin with this embedded packet, with the new end in it.
pub(crate) fn turned_embedded(
    alloc: Global,
    new: &NewEnd,
    inner: &Inner4,
    octets: &[u8],
) -> Result<Bytes, NoMemory>
    requires header { 20 ≤ inner.now.head.head_len }
    requires long { 8 ≤ length inner.now.payload }
    requires stands { inner.now.head.head_len + length inner.now.payload ≤ length octets.now }
    ensures { IfOk result (λ turned. turned ≡ turned_embedded (new_end_in new.now) inner.now octets.now) }
{
    let mut changed = Vec::from_slice(alloc, octets)?;
    turn_header(&mut changed, new, &inner.head);
    turn_transport(&mut changed, new, inner);
    let mut turned = Bytes::new(alloc);
    turned.extend(&changed)?;
    Ok(turned)
}
