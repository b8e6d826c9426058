//! A hop while it is made.
ghost use Rattle.std.specs.Prelude.{◌≡◌, OnOk};
ghost use Rattle.hops.specs.declared.hop.Hop.{Hop as AnyHop};
ghost use Rattle.hops.specs.Gains.{Gains};
ghost use Rattle.hops.specs.Hop.{nothing, sends, sends_pieces, lost, drops, then};

use crate::exit::Exit;
use crate::hop::{Causes, Hop, Outs};
use octets::{Bytes, Cause, NoMemory, Parcels};
use std::alloc::Global;
use std::marker::Model;

/// What a hop comes to so far. A contract sees the hop.
#[derive(Drop)]
pub struct Emission {
    alloc: Global,
    hop: Hop,
}

impl Model for Emission {
    ghost Value = { AnyHop };

    ghost view = { λ emission. emission.hop };
}

impl Emission {
    /// A hop that sends nothing and drops nothing yet.
    pub fn new(alloc: Global) -> Emission
        ensures { result ≡ nothing }
    {
        Emission {
            alloc,
            hop: Hop {
                outs: Outs::new(alloc),
                drops: Causes::new(alloc),
            },
        }
    }

    /// Where it takes memory from.
    pub fn alloc(&self) -> Global {
        self.alloc
    }

    /// The hop sends this packet too.
    pub fn send(&mut self, exit: Exit, octets: Bytes) -> Result<(), NoMemory>
        ensures { OnOk result (self.new ≡ then self.old (sends exit octets)) }
    {
        self.hop.outs.push(exit.leaving(octets))
    }

    /// The hop sends these pieces too, in their order.
    pub fn send_pieces(&mut self, exit: Exit, pieces: &Parcels) -> Result<(), NoMemory>
        ensures { OnOk result (self.new ≡ then self.old (sends_pieces exit pieces.now)) }
    {
        for piece in pieces.as_slice() {
            let octets = piece.bytes.copy(self.alloc)?;
            self.send(exit, octets)?;
        }
        Ok(())
    }

    /// The hop drops a packet too, and nothing answers it.
    pub fn lose(&mut self, cause: Cause) -> Result<(), NoMemory>
        ensures { OnOk result (self.new ≡ then self.old (lost cause)) }
    {
        self.hop.drops.push(cause)
    }

    /// The hop drops a packet too, and sends this error that answers it, where there is one.
    pub fn drop_packet(
        &mut self,
        cause: Cause,
        exit: Exit,
        reply: Option<Bytes>,
    ) -> Result<(), NoMemory>
        ensures { OnOk result (self.new ≡ then self.old (drops cause exit reply)) }
    {
        if let Some(octets) = reply {
            self.hop.outs.push(exit.leaving(octets))?;
        }
        self.hop.drops.push(cause)
    }

    /// The hop that it comes to.
    pub fn hop(self) -> Hop
        ensures { result ≡ self }
    {
        self.hop
    }
}
