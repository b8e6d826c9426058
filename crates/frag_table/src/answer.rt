ghost use Rattle.std.specs.Prelude.{◌≡◌, ◌↔◌, IsTrue, IsOk, IfOk};
ghost use Rattle.frag_table.specs.Copied.{AnswerHasNoParcels};
ghost use Rattle.frag_table.specs.Kind.{IsFragAnswerTo};

use crate::FragAsk;
use l4_headers::Ports;
use octets::{NoMemory, Parcels};
use std::alloc::Global;

/// What a node is told of a fragment.
#[derive(Debug, Drop)]
pub enum FragAnswer {
    /// The first fragment was noted, and no later one waits for it.
    Noted,
    /// The ports of the packet's first fragment.
    Known(Ports),
    /// The later fragment waits for its first one.
    Held,
    /// The first fragment was noted. These later ones waited for it, in the order in which they came.
    Released(Parcels),
    /// There is no room: 256 notes for a new packet, or 16 fragments that wait for one first fragment.
    Full,
}

impl FragAnswer {
    /// The same answer once more. An answer without parcels takes no memory.
    pub fn copy(&self, alloc: Global) -> Result<FragAnswer, NoMemory>
        ensures same { IfOk result (λ copied. copied ≡ self.now) }
        ensures without_parcels { AnswerHasNoParcels self.now → IsOk result }
    {
        match self {
            FragAnswer::Noted => Ok(FragAnswer::Noted),
            FragAnswer::Known(ports) => Ok(FragAnswer::Known(*ports)),
            FragAnswer::Held => Ok(FragAnswer::Held),
            FragAnswer::Released(parcels) => Ok(FragAnswer::Released(parcels.copy(alloc)?)),
            FragAnswer::Full => Ok(FragAnswer::Full),
        }
    }

    /// Whether this is an answer of the kind that the ask has: `Noted`, `Released` or `Full` to a first fragment, and
    /// `Known`, `Held` or `Full` to a later one.
    pub fn is_answer_to(&self, ask: &FragAsk) -> bool
        ensures { IsTrue result ↔ IsFragAnswerTo ask.now self.now }
    {
        match self {
            FragAnswer::Noted | FragAnswer::Released(_) => match ask {
                FragAsk::First(_, _) => true,
                FragAsk::Later(_, _) => false,
            },
            FragAnswer::Known(_) | FragAnswer::Held => match ask {
                FragAsk::First(_, _) => false,
                FragAsk::Later(_, _) => true,
            },
            FragAnswer::Full => true,
        }
    }
}
