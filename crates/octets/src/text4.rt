ghost use Rattle.std.specs.Prelude.{◌≡◌, ℕ, IfOk, IsOkAnd};
ghost use Rattle.octets.specs.Text4.{IsText4, text4, addr4_at};

use crate::numeral::{cut, push_decimal, small_decimal};
use crate::{Addr4, Bytes, NoMemory};
use std::alloc::Global;
use std::error::Error;
use std::fmt;

/// The text is no accepted spelling.
#[derive(Clone, Copy, Debug, PartialEq, Eq, Hash)]
pub struct BadText;

impl fmt::Display for BadText {
    fn fmt<W: fmt::Write>(&self, f: &mut fmt::Formatter<W>) -> fmt::Result {
        f.write_str("no address or prefix")
    }
}

impl Error for BadText {}

/// The number of the address that the text spells.
#[tactic(auto, unfolding(crate::specs::Text4::addr4_at))]
pub(crate) fn number_of_text(text: &[u8]) -> Option<u32>
    ensures { result ≡ addr4_at text.now }
{
    let (first, rest) = cut(text, b'.')?;
    let (second, rest) = cut(rest, b'.')?;
    let (third, fourth) = cut(rest, b'.')?;
    Some(u32::from_be_bytes([
        small_decimal(first)?,
        small_decimal(second)?,
        small_decimal(third)?,
        small_decimal(fourth)?,
    ]))
}

/// Reads an IPv4 address: four decimal numbers of at most 255, without leading zeros, with a dot between
/// any two. `BadText` comes exactly where the text is none.
pub fn read_addr4(text: &[u8]) -> Result<Addr4, BadText>
    ensures found { IfOk result (λ addr. IsText4 text.now addr.0) }
    ensures only { (n : ℕ) → IsText4 text.now n → IsOkAnd result (λ addr. addr.0 ≡ n) }
{
    match number_of_text(text) {
        Some(n) => Ok(Addr4(n)),
        None => Err(BadText),
    }
}

impl Addr4 {
    /// The address as text: four decimal numbers with dots.
    #[tactic(auto, unfolding(crate::specs::Text4::text4))]
    pub fn text(&self, alloc: Global) -> Result<Bytes, NoMemory>
        ensures { IfOk result (λ text. text ≡ text4 self.now.0) }
    {
        let [first, second, third, fourth] = self.0.to_be_bytes();
        let mut text = Bytes::new(alloc);
        push_decimal(&mut text, first)?;
        text.push(b'.')?;
        push_decimal(&mut text, second)?;
        text.push(b'.')?;
        push_decimal(&mut text, third)?;
        text.push(b'.')?;
        push_decimal(&mut text, fourth)?;
        Ok(text)
    }
}
