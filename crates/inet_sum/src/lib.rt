//! Internet sums (RFC 1071, RFC 1624): the sum of a text's 16-bit words, its fold, its check sum, and
//! the check sum after some words changed.
#![tactic(auto)]

ghost use Rattle.std.specs.Prelude.{◌≡◌, ◌+◌, ◌*◌, ◌%◌, ◌^◌, ◌<◌, ◌≤◌, length};
ghost use Rattle.inet_sum.specs.Sum.{words, folded, check_sum, adjusted, as_udp};

/// All 16 bits set. Sums are alike where they differ by a multiple of it.
const ONES: u64 = 65535;

/// The sum of the 16-bit words of at most 2^48 octets, the high octet first. An odd end is padded with 0
/// (RFC 1071 section 1).
pub fn sum(octets: &[u8]) -> u64
    requires { length octets.now ≤ 2 ^ 48 }
    ensures value { result ≡ words octets.now }
    ensures bounded { result ≤ 32768 * (length octets.now + 1) }
{
    let mut total = 0;
    let mut left = octets;
    while let [high, low, rest @ ..] = left {
        total += u64::from(u16::from_be_bytes([*high, *low]));
        left = rest;
    }
    match left {
        [high] => total + u64::from(u16::from_be_bytes([*high, 0])),
        _ => total,
    }
}

/// A sum in 16 bits, its carries added in. Only 0 gives 0 (RFC 1071 section 2).
pub fn fold(words: u64) -> u16
    ensures { result ≡ folded words }
{
    if words == 0 {
        0
    } else {
        (1 + (words - 1) % ONES) as u16
    }
}

/// The check sum of a text whose words have this sum, the check sum's own place counted as 0.
pub fn check_of(words: u64) -> u16
    ensures { result ≡ check_sum words }
{
    u16::MAX - fold(words)
}

/// The check sum `c` of a text after words of sum `old` in it became words of sum `new` (RFC 1624).
pub fn adjust(c: u16, old: u64, new: u64) -> u16
    ensures value { result ≡ adjusted c old new }
    ensures below { result < 65535 }
    ensures alike { (result + new) % 65535 ≡ (c + old) % 65535 }
{
    ((u64::from(c) + old % ONES + (ONES - new % ONES)) % ONES) as u16
}

/// A check sum as UDP writes it: 0 says that there is none, and 65535 stands in its place (RFC 768).
pub fn as_udp(sum: u16) -> u16
    ensures { result ≡ as_udp sum }
{
    if sum == 0 { u16::MAX } else { sum }
}
