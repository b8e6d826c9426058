ghost use Rattle.std.specs.Prelude.{◌≡◌, ◌⊎◌, Some};
ghost use Rattle.octets.specs.Protocol.{proto4, proto6, number4, number6};

use crate::protocol::{ICMP4, ICMP6, TCP, UDP};

/// A transport protocol that the domain carries. `Icmp` is the ICMP of the packet's version.
#[derive(Clone, Copy, Debug, PartialEq, Eq, Hash)]
pub enum Proto {
    Tcp,
    Udp,
    Icmp,
}

impl Proto {
    /// The protocol with this number over IPv4, if the domain carries it.
    pub fn of4(number: u8) -> Option<Proto>
        ensures { result ≡ proto4 number }
    {
        match number {
            TCP => Some(Proto::Tcp),
            UDP => Some(Proto::Udp),
            ICMP4 => Some(Proto::Icmp),
            _ => None,
        }
    }

    /// The protocol with this number over IPv6, if the domain carries it.
    pub fn of6(number: u8) -> Option<Proto>
        ensures { result ≡ proto6 number }
    {
        match number {
            TCP => Some(Proto::Tcp),
            UDP => Some(Proto::Udp),
            ICMP6 => Some(Proto::Icmp),
            _ => None,
        }
    }

    /// TCP or UDP, which have one number over both versions.
    pub fn of_segment(number: u8) -> Proto
        requires { (number ≡ 6) ⊎ (number ≡ 17) }
        ensures four { proto4 number ≡ Some result }
        ensures six { proto6 number ≡ Some result }
    {
        if number == TCP {
            Proto::Tcp
        } else {
            Proto::Udp
        }
    }

    /// Its number over IPv4.
    pub fn number4(self) -> u8
        ensures { result ≡ number4 self }
    {
        match self {
            Proto::Tcp => TCP,
            Proto::Udp => UDP,
            Proto::Icmp => ICMP4,
        }
    }

    /// Its number over IPv6.
    pub fn number6(self) -> u8
        ensures { result ≡ number6 self }
    {
        match self {
            Proto::Tcp => TCP,
            Proto::Udp => UDP,
            Proto::Icmp => ICMP6,
        }
    }
}
