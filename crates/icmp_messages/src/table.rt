//! The tables of types, codes and pointers, row by row.
ghost use Rattle.std.specs.Prelude.{◌≡◌};
ghost use Rattle.icmp_messages.specs.Table.{row_of, pointer_of, table46, table64, pointers46, pointers64};

use octets::icmp_type::{
    ECHO_REPLY4, ECHO_REPLY6, ECHO_REQUEST4, ECHO_REQUEST6, PARAMETER_PROBLEM4, PARAMETER_PROBLEM6,
    TIME_EXCEEDED4, TIME_EXCEEDED6, TOO_BIG6, UNREACHABLE4, UNREACHABLE6,
};

/// What becomes of the four octets behind the sum.
#[derive(Clone, Copy, Debug, PartialEq, Eq, Hash)]
pub enum Rest {
    /// The message is a query: a new identifier, and the sequence as it was.
    Query,
    /// All are 0.
    Zero,
    /// The pointer to the field that names the protocol of the payload.
    Protocol,
    /// The MTU by its formula.
    Mtu,
    /// The pointer by its table.
    Pointer,
}

/// A row: a type and a code, and what they become.
#[derive(Clone, Copy, Debug, PartialEq, Eq, Hash)]
pub struct Row {
    pub kind: u8,
    pub code: u8,
    pub to_kind: u8,
    pub to_code: u8,
    pub rest: Rest,
}

/// A row of a table of pointers: those from `first` to `last`, and what they become.
#[derive(Clone, Copy, Debug, PartialEq, Eq, Hash)]
pub struct PointerRow {
    pub first: u32,
    pub last: u32,
    pub to: u32,
}

/// ICMPv4 to ICMPv6 (after RFC 7915, section 4.2).
const TABLE46: [Row; 21] = [
    Row {
        kind: ECHO_REQUEST4,
        code: 0,
        to_kind: ECHO_REQUEST6,
        to_code: 0,
        rest: Rest::Query,
    },
    Row {
        kind: ECHO_REPLY4,
        code: 0,
        to_kind: ECHO_REPLY6,
        to_code: 0,
        rest: Rest::Query,
    },
    Row {
        kind: UNREACHABLE4,
        code: 0,
        to_kind: UNREACHABLE6,
        to_code: 0,
        rest: Rest::Zero,
    },
    Row {
        kind: UNREACHABLE4,
        code: 1,
        to_kind: UNREACHABLE6,
        to_code: 0,
        rest: Rest::Zero,
    },
    Row {
        kind: UNREACHABLE4,
        code: 5,
        to_kind: UNREACHABLE6,
        to_code: 0,
        rest: Rest::Zero,
    },
    Row {
        kind: UNREACHABLE4,
        code: 6,
        to_kind: UNREACHABLE6,
        to_code: 0,
        rest: Rest::Zero,
    },
    Row {
        kind: UNREACHABLE4,
        code: 7,
        to_kind: UNREACHABLE6,
        to_code: 0,
        rest: Rest::Zero,
    },
    Row {
        kind: UNREACHABLE4,
        code: 8,
        to_kind: UNREACHABLE6,
        to_code: 0,
        rest: Rest::Zero,
    },
    Row {
        kind: UNREACHABLE4,
        code: 11,
        to_kind: UNREACHABLE6,
        to_code: 0,
        rest: Rest::Zero,
    },
    Row {
        kind: UNREACHABLE4,
        code: 12,
        to_kind: UNREACHABLE6,
        to_code: 0,
        rest: Rest::Zero,
    },
    Row {
        kind: UNREACHABLE4,
        code: 2,
        to_kind: PARAMETER_PROBLEM6,
        to_code: 1,
        rest: Rest::Protocol,
    },
    Row {
        kind: UNREACHABLE4,
        code: 3,
        to_kind: UNREACHABLE6,
        to_code: 4,
        rest: Rest::Zero,
    },
    Row {
        kind: UNREACHABLE4,
        code: 4,
        to_kind: TOO_BIG6,
        to_code: 0,
        rest: Rest::Mtu,
    },
    Row {
        kind: UNREACHABLE4,
        code: 9,
        to_kind: UNREACHABLE6,
        to_code: 1,
        rest: Rest::Zero,
    },
    Row {
        kind: UNREACHABLE4,
        code: 10,
        to_kind: UNREACHABLE6,
        to_code: 1,
        rest: Rest::Zero,
    },
    Row {
        kind: UNREACHABLE4,
        code: 13,
        to_kind: UNREACHABLE6,
        to_code: 1,
        rest: Rest::Zero,
    },
    Row {
        kind: UNREACHABLE4,
        code: 15,
        to_kind: UNREACHABLE6,
        to_code: 1,
        rest: Rest::Zero,
    },
    Row {
        kind: TIME_EXCEEDED4,
        code: 0,
        to_kind: TIME_EXCEEDED6,
        to_code: 0,
        rest: Rest::Zero,
    },
    Row {
        kind: TIME_EXCEEDED4,
        code: 1,
        to_kind: TIME_EXCEEDED6,
        to_code: 1,
        rest: Rest::Zero,
    },
    Row {
        kind: PARAMETER_PROBLEM4,
        code: 0,
        to_kind: PARAMETER_PROBLEM6,
        to_code: 0,
        rest: Rest::Pointer,
    },
    Row {
        kind: PARAMETER_PROBLEM4,
        code: 2,
        to_kind: PARAMETER_PROBLEM6,
        to_code: 0,
        rest: Rest::Pointer,
    },
];

/// ICMPv6 to ICMPv4 (after RFC 7915, section 5.2).
const TABLE64: [Row; 12] = [
    Row {
        kind: ECHO_REQUEST6,
        code: 0,
        to_kind: ECHO_REQUEST4,
        to_code: 0,
        rest: Rest::Query,
    },
    Row {
        kind: ECHO_REPLY6,
        code: 0,
        to_kind: ECHO_REPLY4,
        to_code: 0,
        rest: Rest::Query,
    },
    Row {
        kind: UNREACHABLE6,
        code: 0,
        to_kind: UNREACHABLE4,
        to_code: 1,
        rest: Rest::Zero,
    },
    Row {
        kind: UNREACHABLE6,
        code: 2,
        to_kind: UNREACHABLE4,
        to_code: 1,
        rest: Rest::Zero,
    },
    Row {
        kind: UNREACHABLE6,
        code: 3,
        to_kind: UNREACHABLE4,
        to_code: 1,
        rest: Rest::Zero,
    },
    Row {
        kind: UNREACHABLE6,
        code: 1,
        to_kind: UNREACHABLE4,
        to_code: 10,
        rest: Rest::Zero,
    },
    Row {
        kind: UNREACHABLE6,
        code: 4,
        to_kind: UNREACHABLE4,
        to_code: 3,
        rest: Rest::Zero,
    },
    Row {
        kind: TOO_BIG6,
        code: 0,
        to_kind: UNREACHABLE4,
        to_code: 4,
        rest: Rest::Mtu,
    },
    Row {
        kind: TIME_EXCEEDED6,
        code: 0,
        to_kind: TIME_EXCEEDED4,
        to_code: 0,
        rest: Rest::Zero,
    },
    Row {
        kind: TIME_EXCEEDED6,
        code: 1,
        to_kind: TIME_EXCEEDED4,
        to_code: 1,
        rest: Rest::Zero,
    },
    Row {
        kind: PARAMETER_PROBLEM6,
        code: 0,
        to_kind: PARAMETER_PROBLEM4,
        to_code: 0,
        rest: Rest::Pointer,
    },
    Row {
        kind: PARAMETER_PROBLEM6,
        code: 1,
        to_kind: UNREACHABLE4,
        to_code: 2,
        rest: Rest::Zero,
    },
];

/// Places in an IPv4 header, and in the IPv6 header (RFC 7915, figure 3).
const POINTERS46: [PointerRow; 7] = [
    PointerRow {
        first: 0,
        last: 0,
        to: 0,
    },
    PointerRow {
        first: 1,
        last: 1,
        to: 1,
    },
    PointerRow {
        first: 2,
        last: 3,
        to: 4,
    },
    PointerRow {
        first: 8,
        last: 8,
        to: 7,
    },
    PointerRow {
        first: 9,
        last: 9,
        to: 6,
    },
    PointerRow {
        first: 12,
        last: 15,
        to: 8,
    },
    PointerRow {
        first: 16,
        last: 19,
        to: 24,
    },
];

/// Places in an IPv6 header, and in the IPv4 header (RFC 7915, figure 6).
const POINTERS64: [PointerRow; 7] = [
    PointerRow {
        first: 0,
        last: 0,
        to: 0,
    },
    PointerRow {
        first: 1,
        last: 1,
        to: 1,
    },
    PointerRow {
        first: 4,
        last: 5,
        to: 2,
    },
    PointerRow {
        first: 6,
        last: 6,
        to: 9,
    },
    PointerRow {
        first: 7,
        last: 7,
        to: 8,
    },
    PointerRow {
        first: 8,
        last: 23,
        to: 12,
    },
    PointerRow {
        first: 24,
        last: 39,
        to: 16,
    },
];

/// The first row of this type and code.
fn row_of(rows: &[Row], kind: u8, code: u8) -> Option<Row>
    ensures { result ≡ row_of rows.now kind code }
{
    let mut left = rows;
    while let [row, rest @ ..] = left {
        if row.kind == kind && row.code == code {
            return Some(*row);
        }
        left = rest;
    }
    None
}

/// What the first row that has the pointer makes of it.
fn pointer_of(rows: &[PointerRow], pointer: u32) -> Option<u32>
    ensures { result ≡ pointer_of rows.now pointer }
{
    let mut left = rows;
    while let [row, rest @ ..] = left {
        if row.first <= pointer && pointer <= row.last {
            return Some(row.to);
        }
        left = rest;
    }
    None
}

/// The row of an ICMPv4 type and code.
pub fn row46(kind: u8, code: u8) -> Option<Row>
    ensures { result ≡ row_of table46 kind code }
{
    row_of(&TABLE46, kind, code)
}

/// The row of an ICMPv6 type and code.
pub fn row64(kind: u8, code: u8) -> Option<Row>
    ensures { result ≡ row_of table64 kind code }
{
    row_of(&TABLE64, kind, code)
}

/// The place in an IPv6 header that stands for a place in an IPv4 header.
pub fn pointer46(pointer: u32) -> Option<u32>
    ensures { result ≡ pointer_of pointers46 pointer }
{
    pointer_of(&POINTERS46, pointer)
}

/// The place in an IPv4 header that stands for a place in an IPv6 header.
pub fn pointer64(pointer: u32) -> Option<u32>
    ensures { result ≡ pointer_of pointers64 pointer }
{
    pointer_of(&POINTERS64, pointer)
}
