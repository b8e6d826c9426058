//! Texts in rows: a newline is written `\n`, a space of an argument `\s`, and a backslash `\\`.

use octets::{Bytes, NoMemory};
use rows::{RowFault, Said};
use std::alloc::Global;

/// What the octet behind a backslash stands for.
fn meant(octet: u8) -> u8 {
    match octet {
        b'n' => b'\n',
        b's' => b' ',
        _ => octet,
    }
}

/// Adds the text that is written so.
pub fn push_read(text: &mut Bytes, written: &str) -> Result<(), NoMemory> {
    let mut behind = false;
    for octet in written.bytes() {
        if behind {
            text.push(meant(octet))?;
            behind = false;
        } else if octet == b'\\' {
            behind = true;
        } else {
            text.push(octet)?;
        }
    }
    Ok(())
}

/// Says a text on one line.
pub fn say_text(alloc: Global, text: &[u8], said: &mut Said) -> Result<(), RowFault> {
    let mut line = Bytes::new(alloc);
    for octet in text {
        match *octet {
            b'\n' => line.extend(b"\\n")?,
            b'\\' => line.extend(b"\\\\")?,
            other => line.push(other)?,
        }
    }
    said.text(line.as_slice())
}
