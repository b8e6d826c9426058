//! Notes of fragments: the key that they are known by.

use frag_table::FragKey;
use octets::Addr6;
use rows::{RowFault, Said, Words};
use std::alloc::Global;

/// A key: the side, both addresses as IPv6 addresses of the same number, the protocol and the identification.
pub fn key(words: &mut Words<'_>) -> Result<FragKey, RowFault> {
    let way = words.eight()?;
    let src = words.addr6()?.0;
    let dst = words.addr6()?.0;
    let proto = words.eight()?;
    let id = words.thirty_two()?;
    Ok(FragKey {
        way,
        src,
        dst,
        proto,
        id,
    })
}

/// Says a key.
pub fn say_key(alloc: Global, said: &mut Said, key: &FragKey) -> Result<(), RowFault> {
    said.number(u64::from(key.way))?;
    said.addr6(alloc, Addr6(key.src))?;
    said.addr6(alloc, Addr6(key.dst))?;
    said.number(u64::from(key.proto))?;
    said.number(u64::from(key.id))
}
