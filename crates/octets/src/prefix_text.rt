ghost use Rattle.std.specs.Prelude.{◌≡◌, ℕ, IfOk, IsOkAnd, option_map};
ghost use Rattle.octets.specs.Text4.{addr4_at};
ghost use Rattle.octets.specs.Text6.{addr6_at};
ghost use Rattle.octets.specs.PrefixText.{IsPrefixText4, IsPrefixText6, prefix_text4, prefix_text6, prefix_at};

use crate::numeral::{cut, push_decimal, small_decimal};
use crate::{Addr4, Addr6, BadText, Bytes, NoMemory, Prefix4, Prefix6, text4, text6};
use std::alloc::Global;

/// The prefix that the text spells.
#[tactic(auto, unfolding(crate::specs::PrefixText::prefix_at))]
fn prefix4_of(text: &[u8]) -> Option<Prefix4>
    ensures { option_map (λ p. (p.bits, p.len)) result ≡ prefix_at addr4_at 32 text.now }
{
    let (address, len) = cut(text, b'/')?;
    let bits = text4::number_of_text(address)?;
    Prefix4::new(Addr4(bits), small_decimal(len)?)
}

/// The prefix that the text spells.
#[tactic(auto, unfolding(crate::specs::PrefixText::prefix_at))]
fn prefix6_of(text: &[u8]) -> Option<Prefix6>
    ensures { option_map (λ p. (p.bits, p.len)) result ≡ prefix_at addr6_at 128 text.now }
{
    let (address, len) = cut(text, b'/')?;
    let bits = text6::number_of_text(address)?;
    Prefix6::new(Addr6(bits), small_decimal(len)?)
}

/// Reads an IPv4 prefix: an address, `/` and the length, at most 32 and without leading zeros. No bit
/// past the length is set. `BadText` comes exactly where the text is none.
pub fn read_prefix4(text: &[u8]) -> Result<Prefix4, BadText>
    ensures found { IfOk result (λ p. IsPrefixText4 text.now p.bits p.len) }
    ensures only { (bits len : ℕ) → IsPrefixText4 text.now bits len → IsOkAnd result (λ p. (p.bits ≡ bits) × (p.len ≡ len)) }
{
    match prefix4_of(text) {
        Some(prefix) => Ok(prefix),
        None => Err(BadText),
    }
}

/// Reads an IPv6 prefix: an address, `/` and the length, at most 128 and without leading zeros. No bit
/// past the length is set. `BadText` comes exactly where the text is none.
pub fn read_prefix6(text: &[u8]) -> Result<Prefix6, BadText>
    ensures found { IfOk result (λ p. IsPrefixText6 text.now p.bits p.len) }
    ensures only { (bits len : ℕ) → IsPrefixText6 text.now bits len → IsOkAnd result (λ p. (p.bits ≡ bits) × (p.len ≡ len)) }
{
    match prefix6_of(text) {
        Some(prefix) => Ok(prefix),
        None => Err(BadText),
    }
}

impl Prefix4 {
    /// The prefix as text: its address, `/` and its length.
    pub fn text(&self, alloc: Global) -> Result<Bytes, NoMemory>
        ensures { IfOk result (λ text. text ≡ prefix_text4 self.now.bits self.now.len) }
    {
        let mut text = Addr4(self.bits).text(alloc)?;
        text.push(b'/')?;
        push_decimal(&mut text, self.len)?;
        Ok(text)
    }
}

impl Prefix6 {
    /// The prefix as text: its address by RFC 5952, `/` and its length.
    pub fn text(&self, alloc: Global) -> Result<Bytes, NoMemory>
        ensures { IfOk result (λ text. text ≡ prefix_text6 self.now.bits self.now.len) }
    {
        let mut text = Addr6(self.bits).text(alloc)?;
        text.push(b'/')?;
        push_decimal(&mut text, self.len)?;
        Ok(text)
    }
}
