ghost use Rattle.std.specs.Prelude.{◌≡◌, IsOk, IfOk};
ghost use Rattle.nat_model.specs.Copied.{AnswerHasNoParcels};

use octets::{Addr4, Addr6, Cause, NoMemory, Parcels};
use std::alloc::Global;

/// What the machine answers. `freed` are the fragments that waited for this first one, in their order.
#[derive(Debug, Drop)]
pub enum Answer {
    /// The packet goes to the access network, from this IPv4 address and port, and over IPv6 from `src6` to
    /// `dst6`.
    Out {
        from: Addr4,
        port: u16,
        src6: Addr6,
        dst6: Addr6,
        freed: Parcels,
    },
    /// The packet is for this edge itself: it turns, from this address and port.
    Turn {
        from: Addr4,
        port: u16,
        freed: Parcels,
    },
    /// The packet goes to this host and port. It comes from `from`; the flow's remote address is `peer`.
    In {
        to: Addr4,
        port: u16,
        from: Addr4,
        peer: Addr4,
        freed: Parcels,
    },
    /// The port is kept until this time, in microseconds.
    Kept {
        port: u16,
        until: u64,
    },
    /// The fragment waits for its first one.
    Held,
    /// The packet and what it freed are dropped for this cause.
    Refused {
        cause: Cause,
        freed: Parcels,
    },
}

impl Answer {
    /// The same answer once more. An answer without parcels takes no memory.
    pub fn copy(&self, alloc: Global) -> Result<Answer, NoMemory>
        ensures same { IfOk result (λ copied. copied ≡ self.now) }
        ensures without_parcels { AnswerHasNoParcels self.now → IsOk result }
    {
        Ok(match self {
            Answer::Out {
                from,
                port,
                src6,
                dst6,
                freed,
            } => Answer::Out {
                from: *from,
                port: *port,
                src6: *src6,
                dst6: *dst6,
                freed: freed.copy(alloc)?,
            },
            Answer::Turn { from, port, freed } => Answer::Turn {
                from: *from,
                port: *port,
                freed: freed.copy(alloc)?,
            },
            Answer::In {
                to,
                port,
                from,
                peer,
                freed,
            } => Answer::In {
                to: *to,
                port: *port,
                from: *from,
                peer: *peer,
                freed: freed.copy(alloc)?,
            },
            Answer::Kept { port, until } => Answer::Kept {
                port: *port,
                until: *until,
            },
            Answer::Held => Answer::Held,
            Answer::Refused { cause, freed } => Answer::Refused {
                cause: *cause,
                freed: freed.copy(alloc)?,
            },
        })
    }
}
