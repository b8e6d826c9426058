//! The packet that an error embeds, without an extension behind it (RFC 4884).

ghost use Rattle.std.specs.Prelude.{◌≡◌};
ghost use Rattle.icmp_messages.specs.Extension.{embedded46, embedded64};

use crate::{Icmp4, Icmp6};
use octets::icmp_type::{TIME_EXCEEDED6, UNREACHABLE6};

impl Icmp4 {
    /// The packet that the error embeds: its body, or as many words of 32 bits of it as the second of its four octets says, where
    /// that isn't 0.
    pub fn embedded(&self) -> &[u8]
        ensures { result.now ≡ embedded46 self.now }
    {
        let body = self.body.as_slice();
        let words = (self.rest >> 16) % 256;
        if words == 0 {
            return body;
        }
        &body[..body.len().min(4 * words as usize)]
    }
}

impl Icmp6 {
    /// The packet that the error embeds: its body, or of "destination unreachable" and "time exceeded" as many words of 64 bits of
    /// it as the first of its four octets says, where that isn't 0.
    pub fn embedded(&self) -> &[u8]
        ensures { result.now ≡ embedded64 self.now }
    {
        let body = self.body.as_slice();
        let words = self.rest >> 24;
        if (self.kind == UNREACHABLE6 || self.kind == TIME_EXCEEDED6) && words != 0 {
            &body[..body.len().min(8 * words as usize)]
        } else {
            body
        }
    }
}
