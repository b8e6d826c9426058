//! The MTU in an ICMP error (after RFC 7915, sections 4.2 and 5.2).
ghost use Rattle.std.specs.Prelude.{◌≡◌, ◌<◌};
ghost use Rattle.icmp_xlat.specs.Mtu.{plateaus, plateau_below, mtu46, mtu64};

use octets::Mtus;

/// The plateaus (RFC 1191, section 7, table 7-1), from the greatest down.
const PLATEAUS: [u16; 7] = [65535, 32000, 17914, 8166, 4352, 2002, 1492];

/// The least MTU of an IPv6 link (RFC 8200, section 5).
const LEAST: u16 = 1280;

/// What an IPv6 header is longer than one of IPv4.
const DIFFERENCE: u16 = 20;

/// The first of these plateaus that is less than a packet of this length, and 1280 where none is.
fn below(plateaus: &[u16], total: u16) -> u16
    ensures { result ≡ plateau_below plateaus.now total }
{
    let mut left = plateaus;
    while let [plateau, lower @ ..] = left {
        if *plateau < total {
            return *plateau;
        }
        left = lower;
    }
    LEAST
}

/// The MTU for ICMPv6, from that of ICMPv4 and the total length of the embedded packet.
pub(crate) fn mtu46(mtus: Mtus, total: u16, mtu: u16) -> u32
    ensures { result ≡ mtu46 mtus total mtu }
{
    let told = if mtu == 0 {
        below(&PLATEAUS, total)
    } else {
        mtu
    };
    let wider = u32::from(told) + u32::from(DIFFERENCE);
    let most = u32::from(mtus.mtu6).min(u32::from(mtus.mtu4) + u32::from(DIFFERENCE));
    wider.min(most).max(u32::from(LEAST))
}

/// The MTU for ICMPv4, from that of ICMPv6.
pub(crate) fn mtu64(mtus: Mtus, mtu: u32) -> u16
    ensures { result ≡ mtu64 mtus mtu }
{
    let narrower = mtu.max(u32::from(LEAST)) - u32::from(DIFFERENCE);
    let most = mtus.mtu4.min(mtus.mtu6 - DIFFERENCE);
    narrower.min(u32::from(most)) as u16
}
