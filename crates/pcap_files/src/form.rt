ghost use Rattle.std.specs.Prelude.{◌≡◌, ◌+◌, ◌*◌, ◌≤◌, length, OnOk};
ghost use Rattle.pcap_files.specs.Form.{number, in_micros};
ghost use Rattle.pcap_files.specs.Capture.{Gives, way_at, version_at, link_at, form_at};

use crate::CaptureFault;
use byteorder::{BigEndian, ByteOrder, LittleEndian};

/// The octets of a file header.
pub(crate) const HEADER_LEN: usize = 24;

/// The places of the fields of a file header. The time zone, the accuracy and the greatest length
/// aren't looked at.
const MAGIC: usize = 0;

const MAJOR: usize = 4;

const MINOR: usize = 6;

const LINK: usize = 20;

/// The magic numbers, as they read with the highest octet first.
const MICRO_BIG: u32 = 0xa1b2_c3d4;

const MICRO_LITTLE: u32 = 0xd4c3_b2a1;

const NANO_BIG: u32 = 0xa1b2_3c4d;

const NANO_LITTLE: u32 = 0x4d3c_b2a1;

/// Version 2.4, the major version times 65536 plus the minor one.
const VERSION: u32 = 0x0002_0004;

/// The link types that are read.
const ETHERNET: u32 = 1;

const RAW_IP: u32 = 101;

/// The order in which a file's numbers are spelled.
#[derive(Clone, Copy, Debug, PartialEq, Eq)]
pub(crate) enum Order {
    Big,
    Little,
}

/// The unit of the fraction of a record's time.
#[derive(Clone, Copy, Debug, PartialEq, Eq)]
pub(crate) enum Unit {
    Micro,
    Nano,
}

/// What a file's records hold.
#[derive(Clone, Copy, Debug, PartialEq, Eq)]
pub(crate) enum Link {
    /// Ethernet frames.
    Ethernet,
    /// IP packets alone.
    Raw,
}

/// How a file spells its records, as its header says.
#[derive(Clone, Copy, Debug, PartialEq, Eq)]
pub(crate) struct Form {
    pub order: Order,
    pub unit: Unit,
    pub link: Link,
}

impl Order {
    /// The number of 16 bits at a place.
    pub(crate) fn u16_at(self, octets: &[u8], at: usize) -> u16
        requires { at + 2 ≤ length octets.now }
        ensures { result ≡ number self at 2 octets.now }
    {
        match self {
            Order::Big => BigEndian::read_u16(&octets[at..]),
            Order::Little => LittleEndian::read_u16(&octets[at..]),
        }
    }

    /// The number of 32 bits at a place.
    pub(crate) fn u32_at(self, octets: &[u8], at: usize) -> u32
        requires { at + 4 ≤ length octets.now }
        ensures { result ≡ number self at 4 octets.now }
    {
        match self {
            Order::Big => BigEndian::read_u32(&octets[at..]),
            Order::Little => LittleEndian::read_u32(&octets[at..]),
        }
    }
}

impl Unit {
    /// A fraction of a second in whole microseconds.
    pub(crate) fn micros(self, fraction: u32) -> u32
        ensures { result ≡ in_micros self fraction }
    {
        match self {
            Unit::Micro => fraction,
            Unit::Nano => fraction / 1000,
        }
    }
}

/// The order and the unit that the magic number shows.
#[tactic(auto, unfolding(crate::specs::Capture::way_at))]
fn way(octets: &[u8]) -> Result<(Order, Unit), CaptureFault>
    ensures exact { Gives (λ x. (x.0, x.1)) result (way_at octets.now) }
    ensures whole { OnOk result (24 ≤ length octets.now) }
{
    if octets.len() < HEADER_LEN {
        return Err(CaptureFault::NotPcap);
    }
    let magic = Order::Big.u32_at(octets, MAGIC);
    if magic == MICRO_BIG {
        return Ok((Order::Big, Unit::Micro));
    }
    if magic == MICRO_LITTLE {
        return Ok((Order::Little, Unit::Micro));
    }
    if magic == NANO_BIG {
        return Ok((Order::Big, Unit::Nano));
    }
    if magic == NANO_LITTLE {
        return Ok((Order::Little, Unit::Nano));
    }
    Err(CaptureFault::NotPcap)
}

#[tactic(auto, unfolding(crate::specs::Capture::version_at))]
fn check_version(order: Order, octets: &[u8]) -> Result<u32, CaptureFault>
    requires { 24 ≤ length octets.now }
    ensures { Gives (λ x. x) result (version_at order octets.now) }
{
    let major = u32::from(order.u16_at(octets, MAJOR));
    let version = major * 65536 + u32::from(order.u16_at(octets, MINOR));
    if version != VERSION {
        return Err(CaptureFault::BadVersion(version));
    }
    Ok(version)
}

#[tactic(auto, unfolding(crate::specs::Capture::link_at))]
fn read_link(order: Order, octets: &[u8]) -> Result<Link, CaptureFault>
    requires { 24 ≤ length octets.now }
    ensures { Gives (λ x. x) result (link_at order octets.now) }
{
    let link = order.u32_at(octets, LINK);
    if link == ETHERNET {
        return Ok(Link::Ethernet);
    }
    if link == RAW_IP {
        return Ok(Link::Raw);
    }
    Err(CaptureFault::BadLink(link))
}

impl Form {
    /// What the file header says, or its first fault.
    #[tactic(auto, unfolding(crate::specs::Capture::form_at))]
    pub(crate) fn read(octets: &[u8]) -> Result<Form, CaptureFault>
        ensures exact { Gives (λ x. x) result (form_at octets.now) }
        ensures whole { OnOk result (24 ≤ length octets.now) }
    {
        let (order, unit) = way(octets)?;
        let _version = check_version(order, octets)?;
        let link = read_link(order, octets)?;
        Ok(Form { order, unit, link })
    }
}
