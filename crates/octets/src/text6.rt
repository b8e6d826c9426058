ghost use Rattle.std.specs.Prelude.{◌≡◌, ℕ, ◌+◌, ◌*◌, ◌^◌, ◌<◌, ◌≤◌, ◌∷◌, ◌++◌, false, IfOk, IfSome, IfNone, IsOkAnd, OnOk, option_map, length, slice_index};
ghost use Rattle.octets.specs.Bits.{bits_at};
ghost use Rattle.octets.specs.Numeral.{colon, numeral_at};
ghost use Rattle.std.specs.List.{flat_map};
ghost use Rattle.std.specs.Fmt.{digit_glyph};
ghost use Rattle.octets.specs.Text6.{IsText6, gap_at, groups_from, part_at, around_gap, whole_at, addr6_at, groups_of, group_text, joined, longest_run, text6};

use crate::numeral::{cut, numeral};
use crate::text4::BadText;
use crate::{Addr6, Bytes, NoMemory, bits_of};
use std::alloc::Global;

/// The groups of an address.
const GROUPS: u32 = 8;

/// Groups that were read: how many, and the number that they make.
#[derive(Clone, Copy)]
struct Groups {
    count: u32,
    value: u128,
    ghost most: { count ≤ 8 },
    ghost fits: { value < 65536 ^ count },
}

impl Groups {
    /// No group.
    fn none() -> Groups
        ensures count { result.count ≡ 0 }
        ensures value { result.value ≡ 0 }
    {
        Groups { count: 0, value: 0 }
    }

    /// These groups and another one behind them.
    fn with(self, group: u16) -> Groups
        requires { self.count < 8 }
        ensures count { result.count ≡ self.count + 1 }
        ensures value { result.value ≡ self.value * 65536 + group }
    {
        Groups {
            count: self.count + 1,
            value: self.value * 65536 + u128::from(group),
        }
    }

    /// The number of an address that has these groups before a gap and the others behind it.
    fn around_gap(self, right: Groups) -> Option<u128>
        ensures { result ≡ around_gap (self.count, self.value) (right.count, right.value) }
    {
        if self.count + right.count >= GROUPS {
            return None;
        }
        if self.count == 0 {
            return Some(right.value);
        }
        Some((self.value << (16 * (GROUPS - self.count))) + right.value)
    }
}

/// The place of the first `::`.
fn gap_place(text: &[u8]) -> Option<usize>
    ensures within { IfSome result (λ at. at + 1 < length text.now) }
    ensures found { IfSome result (λ at. (slice_index text.now at ≡ 58) × (slice_index text.now (at + 1) ≡ 58)) }
    ensures first { IfSome result (λ at. (k : ℕ) → k < at → slice_index text.now k ≡ 58 → slice_index text.now (k + 1) ≡ 58 → ⊥) }
    ensures none { IfNone result ((k : ℕ) → k + 1 < length text.now → slice_index text.now k ≡ 58 → slice_index text.now (k + 1) ≡ 58 → ⊥) }
{
    for at in 1..text.len() {
        if text[at - 1] == b':' && text[at] == b':' {
            return Some(at - 1);
        }
    }
    None
}

/// What stands before the first `::`, and what stands behind it.
fn gap(text: &[u8]) -> Option<(&[u8], &[u8])>
    ensures { option_map (λ parts. (parts.0.now, parts.1.now)) result ≡ gap_at text.now }
{
    let at = gap_place(text)?;
    Some((&text[..at], &text[at + 2..]))
}

/// One group: one to four hexadecimal digits.
fn group(text: &[u8]) -> Option<u16>
    ensures { result ≡ numeral_at 16 text.now }
{
    u16::try_from(numeral(text, 16)?).ok()
}

/// One group or more, at most eight.
fn several(text: &[u8]) -> Option<Groups>
    ensures { option_map (λ found. (found.count, found.value)) result ≡ groups_from 8 0 0 text.now }
{
    let mut found = Groups::none();
    let mut rest = text;
    for _ in 0..GROUPS {
        let Some((first, after)) = cut(rest, b':') else {
            return Some(found.with(group(rest)?));
        };
        found = found.with(group(first)?);
        rest = after;
    }
    None
}

/// The groups beside a gap, of which there may be none.
#[tactic(auto, unfolding(crate::specs::Text6::part_at))]
fn part(text: &[u8]) -> Option<Groups>
    ensures { option_map (λ found. (found.count, found.value)) result ≡ part_at text.now }
{
    if text.is_empty() {
        return Some(Groups::none());
    }
    several(text)
}

/// An address with all its groups.
#[tactic(auto, unfolding(crate::specs::Text6::whole_at))]
fn whole(text: &[u8]) -> Option<u128>
    ensures { result ≡ whole_at text.now }
{
    let found = several(text)?;
    if found.count != GROUPS {
        return None;
    }
    Some(found.value)
}

/// The number of the address that the text spells.
#[tactic(auto, unfolding(crate::specs::Text6::addr6_at))]
pub(crate) fn number_of_text(text: &[u8]) -> Option<u128>
    ensures { result ≡ addr6_at text.now }
{
    match gap(text) {
        Some((left, right)) => part(left)?.around_gap(part(right)?),
        None => whole(text),
    }
}

/// Reads an IPv6 address by RFC 4291, section 2.2: eight groups of one to four hexadecimal digits of
/// either case with colons, or fewer with one `::` for at least one group of zeros. A dotted tail isn't
/// read. `BadText` comes exactly where the text is none.
pub fn read_addr6(text: &[u8]) -> Result<Addr6, BadText>
    ensures found { IfOk result (λ addr. IsText6 text.now addr.0) }
    ensures only { (n : ℕ) → IsText6 text.now n → IsOkAnd result (λ addr. addr.0 ≡ n) }
{
    match number_of_text(text) {
        Some(n) => Ok(Addr6(n)),
        None => Err(BadText),
    }
}

/// A hexadecimal digit in lower case.
fn hex_digit(digit: u8) -> u8
    requires { digit < 16 }
    ensures { result ≡ digit_glyph false digit }
{
    if digit < 10 {
        b'0' + digit
    } else {
        b'a' + (digit - 10)
    }
}

/// Adds a group without leading zeros at the end. One digit always stays. After a refusal a part of it
/// may stand there.
fn push_group(text: &mut Bytes, group: u16) -> Result<(), NoMemory>
    ensures { OnOk result (text.new ≡ text.old ++ group_text group) }
{
    let digits = [
        hex_digit((group / 4096) as u8),
        hex_digit((group / 256 % 16) as u8),
        hex_digit((group / 16 % 16) as u8),
        hex_digit((group % 16) as u8),
    ];
    let leading_zeros = if group < 16 {
        3
    } else if group < 256 {
        2
    } else if group < 4096 {
        1
    } else {
        0
    };
    text.extend(&digits[leading_zeros..])
}

/// Adds a colon and the group at the end, for each group.
fn push_others(text: &mut Bytes, groups: &[u16]) -> Result<(), NoMemory>
    ensures { OnOk result (text.new ≡ text.old ++ flat_map (λ g. colon ∷ group_text g) groups.now) }
{
    for group in groups {
        text.push(b':')?;
        push_group(text, *group)?;
    }
    Ok(())
}

/// Adds groups with a colon between any two at the end.
fn push_groups(text: &mut Bytes, groups: &[u16]) -> Result<(), NoMemory>
    ensures { OnOk result (text.new ≡ text.old ++ joined groups.now) }
{
    if groups.is_empty() {
        return Ok(());
    }
    push_group(text, groups[0])?;
    push_others(text, &groups[1..])
}

/// A run of groups of zeros.
#[derive(Clone, Copy)]
struct Run {
    start: usize,
    len: usize,
}

/// The longest run of groups of zeros, and the first of equal ones.
fn longest_run(groups: &[u16; 8]) -> Run
    ensures start { result.start ≡ (longest_run groups.now).start }
    ensures length { result.len ≡ (longest_run groups.now).len }
    ensures within { result.start + result.len ≤ 8 }
{
    let mut longest = Run { start: 8, len: 0 };
    let mut zeros = 0;
    for at in (0..8).rev() {
        zeros = if groups[at] == 0 { zeros + 1 } else { 0 };
        if zeros >= longest.len {
            longest = Run {
                start: at,
                len: zeros,
            };
        }
    }
    longest
}

/// The group with this number, from 0 on.
fn group_of(addr: Addr6, number: u8) -> u16
    requires { number < 8 }
    ensures { result ≡ bits_at 128 addr.0 (16 * number) 16 }
{
    bits_of(addr, 16 * number, 16) as u16
}

/// The groups of an address.
fn groups_of(addr: Addr6) -> [u16; 8]
    ensures { result ≡ groups_of addr.0 }
{
    [
        group_of(addr, 0),
        group_of(addr, 1),
        group_of(addr, 2),
        group_of(addr, 3),
        group_of(addr, 4),
        group_of(addr, 5),
        group_of(addr, 6),
        group_of(addr, 7),
    ]
}

impl Addr6 {
    /// The address as text by RFC 5952: lower case, no leading zeros, and `::` for the longest run of at
    /// least two groups of zeros, the first of equal ones. A dotted tail is never written.
    #[tactic(auto, unfolding(crate::specs::Text6::text6))]
    pub fn text(&self, alloc: Global) -> Result<Bytes, NoMemory>
        ensures { IfOk result (λ text. text ≡ text6 self.now.0) }
    {
        let groups = groups_of(*self);
        let zeros = longest_run(&groups);
        let mut text = Bytes::new(alloc);
        if zeros.len < 2 {
            push_groups(&mut text, &groups)?;
            return Ok(text);
        }
        push_groups(&mut text, &groups[..zeros.start])?;
        text.extend(b"::")?;
        push_groups(&mut text, &groups[zeros.start + zeros.len..])?;
        Ok(text)
    }
}
