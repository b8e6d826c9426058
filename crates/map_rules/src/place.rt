ghost use Rattle.std.specs.Prelude.{◌≡◌, ℕ, ◌+◌, ◌^◌, ◌<◌, ◌≤◌};
ghost use Rattle.map_rules.specs.Embedding.{placed};

/// A number of `count` bits where it stands in an IPv6 address from bit `from` on, counted from the left.
pub(crate) fn place(x: u128, from: u8, count: u8) -> u128
    requires bits { from + count ≤ 128 }
    requires number { x < 2 ^ count }
    ensures { result ≡ placed x from count }
{
    if count == 0 {
        return 0;
    }
    x << (128 - (from + count))
}
