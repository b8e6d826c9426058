//! A packet in the hand of a node that knows how to answer it.
ghost use Rattle.std.specs.Prelude.{◌≡◌, OnOk};
ghost use Rattle.hops.specs.Gains.{Gains};
ghost use Rattle.hops.specs.Hop.{IsRefused, IsCarried};

use crate::answering::Answering;
use crate::emission::Emission;
use crate::exit::Exit;
use crate::side::Side;
use octets::{Cause, NoMemory};
use transit::Passage;

/// A packet whose header was read, and how the node answers it where it drops it.
#[derive(Drop)]
pub struct InHand<'a, S: Side> {
    pub head: &'a S::Head,
    pub octets: &'a [u8],
    pub from: Answering<S::Addr>,
}

impl<S: Side> InHand<'_, S> {
    /// The packet is dropped, and answered where an error may answer it.
    pub fn refuse(&self, cause: Cause, hop: &mut Emission) -> Result<(), NoMemory>
        requires { S.IsHeader self.now.head.now self.now.octets.now }
        ensures { OnOk result (Gains (IsRefused
            (S.IsReply self.now.from self.now.head.now self.now.octets.now) self.now.from.exit cause) hop.old hop.new) }
    {
        let reply = S::reply(hop.alloc(), &self.from, self.head, self.octets, cause)?;
        hop.drop_packet(cause, self.from.exit, reply)
    }

    /// The translated packet leaves, whole or in pieces, or the packet is dropped.
    pub fn leave(&self, exit: Exit, passage: Passage, hop: &mut Emission) -> Result<(), NoMemory>
        requires { S.IsHeader self.now.head.now self.now.octets.now }
        ensures { OnOk result (Gains (IsCarried
            (IsRefused (S.IsReply self.now.from self.now.head.now self.now.octets.now) self.now.from.exit) exit passage) hop.old hop.new) }
    {
        match passage {
            Passage::Sent(octets) => hop.send(exit, octets),
            Passage::Cut(pieces) => hop.send_pieces(exit, &pieces),
            Passage::Spent => self.refuse(Cause::TtlSpent, hop),
            Passage::TooBig => self.refuse(Cause::TooBig, hop),
        }
    }
}
