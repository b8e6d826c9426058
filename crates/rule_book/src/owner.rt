ghost use Rattle.std.specs.Prelude.{◌≡◌, length, IfOk};
ghost use Rattle.rule_book.specs.Text.{has_own, edge_name, own_line, owner_text};
ghost use Rattle.rule_book.specs.Book.{rules_of};

use crate::lines::push_number;
use crate::{Book, RuleView};
use octets::{Addr4, Addr6, Bytes, NoMemory, Prefix6, bits_of};
use std::alloc::Global;

/// Where a MAP address carries the PSID, and in how many bits.
const PSID_AT: u8 = 112;

const PSID_BITS: u8 = 16;

/// The line that says who holds an IPv4 address and port: `none`, or the MAP address, the word `psid` and the
/// PSID in decimal digits, the word `edge` and the name that stands at the place of the first prefix whose
/// edge has that address, or `-` where none has. It ends with a newline.
pub fn owner_line(
    alloc: Global,
    book: &Book,
    prefixes: &[Prefix6],
    names: &[Bytes],
    addr: Addr4,
    port: u16,
) -> Result<Bytes, NoMemory>
    requires { length prefixes.now ≡ length names.now }
    ensures { IfOk result
        (λ line. line ≡ owner_text (rules_of book.now) prefixes.now names.now addr.0 port) }
{
    match book.owner(addr, port) {
        Some(own) => own_line(alloc, own, edge_name(book, prefixes, names, own)),
        None => {
            let mut line = Bytes::new(alloc);
            line.extend(b"none\n")?;
            Ok(line)
        }
    }
}

/// The line of an own address, with this name for its edge.
#[tactic(auto, unfolding(crate::specs::Text::own_line))]
fn own_line(alloc: Global, own: Addr6, name: &[u8]) -> Result<Bytes, NoMemory>
    ensures { IfOk result (λ line. line ≡ own_line own.0 name.now) }
{
    let mut line = own.text(alloc)?;
    line.extend(b" psid ")?;
    let psid = bits_of(own, PSID_AT, PSID_BITS) as u16;
    push_number(alloc, &mut line, psid)?;
    line.extend(b" edge ")?;
    line.extend(name)?;
    line.push(b'\n')?;
    Ok(line)
}

/// The name at the place of the first prefix whose edge has this own address, or `-`.
fn edge_name<'a>(book: &Book, prefixes: &[Prefix6], names: &'a [Bytes], own: Addr6) -> &'a [u8]
    requires { length prefixes.now ≡ length names.now }
    ensures { result.now ≡ edge_name (rules_of book.now) prefixes.now names.now own.0 }
{
    for at in 0..prefixes.len() {
        if has_own(book, prefixes[at], own) {
            return names[at].as_slice();
        }
    }
    b"-"
}

/// Whether the edge with this prefix has this own address.
fn has_own(book: &Book, prefix: Prefix6, own: Addr6) -> bool
    ensures { result ≡ has_own (rules_of book.now) own.0 prefix }
{
    match book.edge_of(prefix) {
        Some(edge) => edge.own6.0 == own.0,
        None => false,
    }
}
