//! Options one after another, as a DHCPv6 message has them (RFC 8415, section 21.1).

ghost use Rattle.std.specs.Prelude.{◌≡◌, ◌+◌, ◌<◌, ◌^◌, ◌++◌, false, true, map, length, drop, take, IfOk, IfSome, IfNone, OnOk};
ghost use Rattle.octets.specs.Field.{word, part};
ghost use Rattle.s46_options.specs.Options.{DhcpOption, spelled, spelled_all, starts_whole, first_option, Cut as CutOf, cut, IsCut};
ghost use Rattle.s46_options.specs.Raw.{option_of, options_of};

use crate::codes::HEAD_LEN;
use byteorder::{BigEndian, ByteOrder};
use octets::{Bytes, NoMemory};
use std::alloc::Global;

/// Where the length stands in an option.
pub(crate) const LENGTH_AT: usize = 2;

/// An option as it stands: its code and its octets.
#[derive(Clone, Copy)]
pub(crate) struct RawOption<'a> {
    pub code: u16,
    pub octets: &'a [u8],
}

/// The whole options that stand first, and the octets that are left.
#[derive(Drop)]
pub(crate) struct Cut<'a> {
    pub options: Vec<RawOption<'a>>,
    pub left: &'a [u8],
}

impl Cut<'_> {
    ghost use Rattle.s46_options.specs.Raw.{cut_of};
    ghost use Rattle.s46_options.specs.Faults.{leaves_over};

    /// Whether one to three octets are left, too few for an option.
    pub(crate) fn leaves_over(&self) -> bool
        ensures { result ≡ leaves_over (cut_of self.now) }
    {
        !self.left.is_empty() && self.left.len() < HEAD_LEN
    }
}

/// The whole option that stands first, and the octets behind it.
fn first_option(octets: &[u8]) -> Option<(RawOption<'_>, &[u8])>
    ensures some { IfSome result (λ x. starts_whole octets.now ≡ true) }
    ensures option { IfSome result (λ x. option_of x.0 ≡ first_option octets.now) }
    ensures rest { IfSome result (λ x. x.1.now ≡ drop (4 + word octets.now 2) octets.now) }
    ensures none { IfNone result (starts_whole octets.now ≡ false) }
{
    if octets.len() < HEAD_LEN {
        return None;
    }
    let code = BigEndian::read_u16(octets);
    let end = HEAD_LEN + usize::from(BigEndian::read_u16(&octets[LENGTH_AT..]));
    if octets.len() < end {
        return None;
    }
    let option = RawOption {
        code,
        octets: &octets[HEAD_LEN..end],
    };
    Some((option, &octets[end..]))
}

/// Cuts octets into options.
pub(crate) fn cut_options(alloc: Global, octets: &[u8]) -> Result<Cut<'_>, NoMemory>
    ensures options { IfOk result (λ parts. options_of parts.options.items ≡ (cut octets.now).options) }
    ensures left { IfOk result (λ parts. parts.left.now ≡ (cut octets.now).left) }
{
    let mut options = Vec::new(alloc);
    let mut left = octets;
    while let Some((option, rest)) = first_option(left) {
        options.push(option)?;
        left = rest;
    }
    Ok(Cut { options, left })
}

/// Adds an option of this code and these octets at the end.
pub(crate) fn push_option(out: &mut Bytes, code: u16, octets: &[u8]) -> Result<(), NoMemory>
    requires { length octets.now < 2 ^ 16 }
    ensures { OnOk result (out.new ≡ out.old ++ spelled (record { code = code; octets = octets.now })) }
{
    let mut head = [0; HEAD_LEN];
    BigEndian::write_u16(&mut head, code);
    BigEndian::write_u16(&mut head[LENGTH_AT..], octets.len() as u16);
    out.extend(&head)?;
    out.extend(octets)
}
