ghost use Rattle.std.specs.Prelude.{◌≡◌, Some, None};
ghost use Rattle.octets.specs.Cause.{number_of, cause_of};

use crate::NoMemory as OutOfMemory;

/// Why a node dropped a packet, in the order in which causes are tested.
#[derive(Clone, Copy, Debug, PartialEq, Eq, Hash)]
pub enum Cause {
    /// No octet, or the version isn't the side's.
    NotIp,
    /// Fewer octets stand than the header or its length needs.
    Truncated,
    /// Header lengths, options, chain or fragment fields disagree.
    BadHeader,
    /// The IPv4 header's sum is wrong.
    BadHeaderSum,
    /// A group, broadcast or unspecified destination.
    BadDestination,
    /// An unexpired IPv4 source route, or segments left above 0.
    SourceRoute,
    /// The upper protocol isn't TCP, UDP or the ICMP of the version.
    UnsupportedProtocol,
    /// ICMP in a fragment.
    IcmpFragment,
    /// A transport header that is too short, or whose lengths disagree.
    BadTransport,
    /// The ICMP sum is wrong.
    IcmpSum,
    /// The ICMP type, code or pointer has no translation.
    IcmpKind,
    /// The embedded packet can't be read, or doesn't agree with the outer one.
    BadInner,
    /// A UDP sum of 0 where one is needed.
    NoUdpSum,
    /// No rule of the generation fits the edge's prefix.
    NoBasicRule,
    /// The destination isn't the edge's own address.
    WrongDestination,
    /// The fragment table, or what one key may hold, is full.
    FragmentsFull,
    /// A source inside a rule's IPv6 prefix isn't that rule's address for its port.
    Spoofed,
    /// An address that must be embedded in the default mapping rule isn't.
    NotDefault,
    /// No rule gives the IPv4 destination and port.
    NoOwner,
    /// No unexpired binding has that port.
    NoBinding,
    /// Every claimable port of the set is bound for that protocol.
    NoPort,
    /// The TTL or hop limit is spent.
    TtlSpent,
    /// The translated packet is over the MTU and may not be cut.
    TooBig,
}

/// All causes, by rising number from 1.
const CAUSES: [Cause; 23] = [
    Cause::NotIp,
    Cause::Truncated,
    Cause::BadHeader,
    Cause::BadHeaderSum,
    Cause::BadDestination,
    Cause::SourceRoute,
    Cause::UnsupportedProtocol,
    Cause::IcmpFragment,
    Cause::BadTransport,
    Cause::IcmpSum,
    Cause::IcmpKind,
    Cause::BadInner,
    Cause::NoUdpSum,
    Cause::NoBasicRule,
    Cause::WrongDestination,
    Cause::FragmentsFull,
    Cause::Spoofed,
    Cause::NotDefault,
    Cause::NoOwner,
    Cause::NoBinding,
    Cause::NoPort,
    Cause::TtlSpent,
    Cause::TooBig,
];

/// A packet's cause, or want of memory.
#[derive(Clone, Copy, Debug, PartialEq, Eq, Hash)]
pub enum Fault {
    Drop(Cause),
    NoMemory,
}

impl From<Cause> for Fault {
    ghost use Rattle.octets.specs.declared.cause.Fault.TheVariants.{Drop as Dropped};

    ghost from_gives = { λ cause fault. fault ≡ Dropped cause };

    fn from(cause: Cause) -> Fault {
        Fault::Drop(cause)
    }
}

impl From<OutOfMemory> for Fault {
    ghost use Rattle.octets.specs.declared.cause.Fault.TheVariants.{NoMemory};

    ghost from_gives = { λ _ fault. fault ≡ NoMemory };

    fn from(_: OutOfMemory) -> Fault {
        Fault::NoMemory
    }
}

impl Cause {
    /// The cause's number, 1 to 23, in the order of the list.
    pub fn number(self) -> u8
        ensures { result ≡ number_of self }
    {
        match self {
            Cause::NotIp => 1,
            Cause::Truncated => 2,
            Cause::BadHeader => 3,
            Cause::BadHeaderSum => 4,
            Cause::BadDestination => 5,
            Cause::SourceRoute => 6,
            Cause::UnsupportedProtocol => 7,
            Cause::IcmpFragment => 8,
            Cause::BadTransport => 9,
            Cause::IcmpSum => 10,
            Cause::IcmpKind => 11,
            Cause::BadInner => 12,
            Cause::NoUdpSum => 13,
            Cause::NoBasicRule => 14,
            Cause::WrongDestination => 15,
            Cause::FragmentsFull => 16,
            Cause::Spoofed => 17,
            Cause::NotDefault => 18,
            Cause::NoOwner => 19,
            Cause::NoBinding => 20,
            Cause::NoPort => 21,
            Cause::TtlSpent => 22,
            Cause::TooBig => 23,
        }
    }

    /// The cause with this number, if it is 1 to 23.
    pub fn from_number(number: u8) -> Option<Cause>
        ensures { result ≡ cause_of number }
    {
        if number == 0 {
            return None;
        }
        let at = usize::from(number - 1);
        if at < CAUSES.len() {
            Some(CAUSES[at])
        } else {
            None
        }
    }
}
