//! Octets as hexadecimal text.

ghost use Rattle.std.specs.Prelude.{◌≡◌, ◌<◌, ◌≤◌, ◌^◌, ◌⊎◌, length, IfOk, IfErr, Ok, Err};
ghost use Rattle.hex.specs.Hex.{decode_of};
ghost use Rattle.s46_options.specs.Digits.{digits_in, told_by, hex_of};
ghost use Rattle.s46_options.specs.declared.digits.HexFault.TheVariants.{NoMemory as OutOfMemory};

use hex::FromHexError;
use octets::{Bytes, NoMemory};
use std::alloc::Global;

/// Why a text is no octets.
#[derive(Clone, Copy, Debug, PartialEq, Eq)]
pub enum HexFault {
    /// The place of the first octet that is no digit, or the number of octets where that is odd; a newline at
    /// the end isn't counted.
    At(u32),
    /// Memory ran out.
    NoMemory,
}

impl From<NoMemory> for HexFault {
    ghost from_gives = { λ _ e. e ≡ OutOfMemory };

    fn from(_: NoMemory) -> Self {
        HexFault::NoMemory
    }
}

/// The text without a newline at its end.
fn digits_in(text: &[u8]) -> &[u8]
    ensures value { result.now ≡ digits_in text.now }
    ensures most { length result.now ≤ length text.now }
{
    if !text.is_empty() && text[text.len() - 1] == b'\n' {
        return &text[..text.len() - 1];
    }
    text
}

/// What is told of digits that don't decode.
fn fault_of(digits: &[u8], fault: FromHexError) -> HexFault
    requires short { length digits.now < 2 ^ 32 }
    requires told { (fault ≡ FromHexError.OutOfMemory) ⊎ (decode_of digits.now ≡ Err fault) }
    ensures memory { fault ≡ FromHexError.OutOfMemory → result ≡ HexFault.NoMemory }
    ensures told { (fault ≡ FromHexError.OutOfMemory → ⊥) → told_by digits.now (Err fault) ≡ Err result }
{
    match fault {
        FromHexError::InvalidHexCharacter { index, .. } => HexFault::At(index as u32),
        FromHexError::OutOfMemory => HexFault::NoMemory,
        FromHexError::OddLength | FromHexError::InvalidStringLength => {
            HexFault::At(digits.len() as u32)
        }
    }
}

/// The octets that a text spells: hexadecimal digits of either case, and at most one newline at the end.
/// Refused with the number of octets where it is odd, a newline at the end not counted, and else with the
/// place of the first octet that is no digit. The text is shorter than 2^32 octets, so that a place has 32 bits.
#[tactic(auto, using(crate::proofs::Hexadecimal::half_as_long), unfolding(crate::specs::Digits::hex_of))]
pub fn read_hex(alloc: Global, text: &[u8]) -> Result<Bytes, HexFault>
    requires { length text.now < 2 ^ 32 }
    ensures octets { IfOk result (λ octets. hex_of text.now ≡ Ok octets) }
    ensures short { IfOk result (λ octets. length octets ≤ length text.now) }
    ensures refused { IfErr result (λ e. (hex_of text.now ≡ Err e) ⊎ (e ≡ HexFault.NoMemory)) }
{
    let digits = digits_in(text);
    match hex::decode(alloc, digits) {
        Ok(read) => {
            let mut octets = Bytes::new(alloc);
            octets.extend(&read)?;
            Ok(octets)
        }
        Err(fault) => Err(fault_of(digits, fault)),
    }
}
