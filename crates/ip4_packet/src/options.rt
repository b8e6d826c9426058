//! The options of a header (RFC 791, section 3.1).

ghost use Rattle.std.specs.Prelude.{◌≡◌, ◌≤◌, MatchOption, None};
ghost use Rattle.octets.specs.Field.{octet};
ghost use Rattle.ip4_packet.specs.Options.{is_source_route, least_length, is_unspent, routed_in, IsFirstOption, IsWholeOption};

use crate::layout::{
    LOOSE_ROUTE, OPTION_END, OPTION_LEN_AT, OPTION_NONE, POINTER_AT, STRICT_ROUTE,
};

/// A source route, loose or strict.
fn is_source_route(kind: u8) -> bool
    ensures { result ≡ is_source_route kind }
{
    kind == LOOSE_ROUTE || kind == STRICT_ROUTE
}

/// Octets of the shortest option of this kind: kind and length, of a source route a pointer too.
fn least_length(kind: u8) -> usize
    ensures { result ≡ least_length kind }
{
    if is_source_route(kind) { 3 } else { 2 }
}

/// The option at the front, which has a length octet. None where its length is below that of its kind
/// or passes the octets.
fn first_option(octets: &[u8]) -> Option<&[u8]>
    requires { 2 ≤ octet octets.now 0 }
    ensures { MatchOption result (routed_in 0 octets.now ≡ None) (λ option. IsFirstOption option.now octets.now) }
{
    if octets.len() <= OPTION_LEN_AT {
        return None;
    }
    let len = usize::from(octets[OPTION_LEN_AT]);
    if len < least_length(octets[0]) || octets.len() < len {
        return None;
    }
    Some(&octets[..len])
}

/// Whether this option is a source route whose pointer isn't above its length, so that it isn't spent.
fn is_unspent(option: &[u8]) -> bool
    requires { IsWholeOption option.now }
    ensures { result ≡ is_unspent (octet option.now 0) (octet option.now 1) (octet option.now 2) }
{
    is_source_route(option[0]) && option[POINTER_AT] <= option[OPTION_LEN_AT]
}

/// Whether a source route that isn't spent is among the options. None where the octets are no list of
/// options: an option is shorter than its kind asks, or passes the end.
pub(crate) fn routed(octets: &[u8]) -> Option<bool>
    ensures { result ≡ routed_in 0 octets.now }
{
    let mut found = false;
    let mut left = octets;
    while !left.is_empty() && left[0] != OPTION_END {
        if left[0] == OPTION_NONE {
            left = &left[1..];
        } else {
            let option = first_option(left)?;
            found = found || is_unspent(option);
            left = &left[option.len()..];
        }
    }
    Some(found)
}
