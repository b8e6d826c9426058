ghost use Rattle.std.specs.Prelude.{◌≡◌, ◌≤◌};
ghost use Rattle.pcap_files.specs.Capture.{packet_of, has_ip_type, has_tag};

use crate::form::Link;
use byteorder::{BigEndian, ByteOrder};

/// The place of the type in an Ethernet frame, and of that behind a tag.
const TYPE: usize = 12;

const TAGGED_TYPE: usize = 16;

/// The octets before the packet of an Ethernet frame, without a tag and with one.
const PLAIN_LEN: usize = 14;

const TAGGED_LEN: usize = 18;

/// The types of IPv4, IPv6 and an IEEE 802.1Q tag.
const IPV4: u16 = 0x0800;

const IPV6: u16 = 0x86dd;

const TAG: u16 = 0x8100;

/// Whether the type of IPv4 or IPv6 stands at the place.
fn has_ip(frame: &[u8], at: usize) -> bool
    requires { at ≤ 16 }
    ensures { result ≡ has_ip_type frame.now at }
{
    if frame.len() < at + 2 {
        return false;
    }
    let kind = BigEndian::read_u16(&frame[at..]);
    kind == IPV4 || kind == IPV6
}

/// Whether a tag stands in the place of the type.
fn is_tagged(frame: &[u8]) -> bool
    ensures { result ≡ has_tag frame.now }
{
    frame.len() >= TAGGED_LEN && BigEndian::read_u16(&frame[TYPE..]) == TAG
}

/// The packet in what was captured. It is empty where no IP packet stands there.
#[tactic(auto, unfolding(crate::specs::Capture::packet_of))]
pub(crate) fn packet(link: Link, captured: &[u8]) -> &[u8]
    ensures { result.now ≡ packet_of link captured.now }
{
    match link {
        Link::Raw => captured,
        Link::Ethernet => {
            if has_ip(captured, TYPE) {
                return &captured[PLAIN_LEN..];
            }
            if is_tagged(captured) && has_ip(captured, TAGGED_TYPE) {
                return &captured[TAGGED_LEN..];
            }
            &[]
        }
    }
}
