ghost use Rattle.std.specs.Prelude.{◌≡◌, ◌<◌, ◌≤◌, ◌++◌, OnOk, IfSome, IfNone, length, slice_index, option_map};
ghost use Rattle.std.specs.Fmt.{decimal};
ghost use Rattle.octets.specs.Numeral.{LacksBefore, cut_at, numeral_at, small_decimal_at};

use crate::{Bytes, NoMemory};

/// The most digits of a number that is read.
const MOST_DIGITS: usize = 4;

/// The place of the first such octet.
fn place_of(text: &[u8], octet: u8) -> Option<usize>
    ensures within { IfSome result (λ at. at < length text.now) }
    ensures found { IfSome result (λ at. slice_index text.now at ≡ octet) }
    ensures first { IfSome result (λ at. LacksBefore octet at text.now) }
    ensures none { IfNone result (LacksBefore octet (length text.now) text.now) }
{
    text.iter().position(|o| *o == octet)
}

/// What stands before the first such octet, and what stands behind it.
pub(crate) fn cut(text: &[u8], octet: u8) -> Option<(&[u8], &[u8])>
    ensures { option_map (λ parts. (parts.0.now, parts.1.now)) result ≡ cut_at octet text.now }
{
    let at = place_of(text, octet)?;
    Some((&text[..at], &text[at + 1..]))
}

/// The number that one to four digits of this radix spell.
#[tactic(auto, unfolding(crate::specs::Numeral::numeral_at))]
pub(crate) fn numeral(text: &[u8], radix: u32) -> Option<u32>
    requires least { 2 ≤ radix }
    requires most { radix ≤ 16 }
    ensures { result ≡ numeral_at radix text.now }
{
    if text.is_empty() || text.len() > MOST_DIGITS {
        return None;
    }
    let mut value = 0;
    for octet in text {
        value = value * radix + char::from(*octet).to_digit(radix)?;
    }
    Some(value)
}

/// The number below 256 that decimal digits without leading zeros spell.
#[tactic(auto, unfolding(crate::specs::Numeral::small_decimal_at))]
pub(crate) fn small_decimal(text: &[u8]) -> Option<u8>
    ensures { result ≡ small_decimal_at text.now }
{
    if text.len() > 1 && text[0] == b'0' {
        return None;
    }
    u8::try_from(numeral(text, 10)?).ok()
}

/// Adds a number in decimal digits at the end. After a refusal a part of it may stand there.
pub(crate) fn push_decimal(text: &mut Bytes, number: u8) -> Result<(), NoMemory>
    ensures { OnOk result (text.new ≡ text.old ++ decimal number) }
{
    let digits = [
        b'0' + number / 100,
        b'0' + number / 10 % 10,
        b'0' + number % 10,
    ];
    let leading_zeros = if number < 10 {
        2
    } else if number < 100 {
        1
    } else {
        0
    };
    text.extend(&digits[leading_zeros..])
}
