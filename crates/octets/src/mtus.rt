ghost use Rattle.std.specs.Prelude.{◌≤◌};

/// The greatest packet of each side of a node, in octets with its IP header: 1280 to 9000.
#[derive(Clone, Copy, Debug, PartialEq, Eq, Hash)]
pub struct Mtus {
    pub mtu4: u16,
    pub mtu6: u16,
    ghost least4: { 1280 ≤ mtu4 },
    ghost most4: { mtu4 ≤ 9000 },
    ghost least6: { 1280 ≤ mtu6 },
    ghost most6: { mtu6 ≤ 9000 },
}
