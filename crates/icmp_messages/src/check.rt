//! Folded sums of octets of any number.

ghost use Rattle.std.specs.Prelude.{◌≡◌, ◌+◌, ◌^◌, ◌≤◌};
ghost use Rattle.inet_sum.specs.Sum.{words, folded};

use inet_sum::{fold, sum};

/// So many octets are summed at once: an even number that a sum of 64 bits has room for.
const PIECE: usize = 1 << 32;

/// The fold of words with the sum `before` and of the words of these octets behind them (RFC 1071,
/// section 1).
pub(crate) fn folded_behind(before: u64, octets: &[u8]) -> u16
    requires { before ≤ 2 ^ 32 }
    ensures { result ≡ folded (before + words octets.now) }
{
    if octets.len() <= PIECE {
        return fold(before + sum(octets));
    }
    let (piece, rest) = octets.split_at(PIECE);
    let so_far = fold(before + sum(piece));
    folded_behind(u64::from(so_far), rest)
}
