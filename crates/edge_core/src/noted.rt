ghost use Rattle.std.specs.Prelude.{◌≡◌, ◌⊎◌, []};
ghost use Rattle.nat_model.specs.Waiting.{FreesAtMost};

use nat_model::Answer;
use octets::Parcels;
use std::alloc::Global;

/// The answer once more, with a copy of the parcels that it may free.
pub(crate) fn noted(alloc: Global, answer: &Answer, copied: Parcels) -> Answer
    requires { FreesAtMost copied answer.now }
    ensures { result ≡ answer.now }
{
    match answer {
        Answer::Out {
            from,
            port,
            src6,
            dst6,
            freed,
        } => Answer::Out {
            from: *from,
            port: *port,
            src6: *src6,
            dst6: *dst6,
            freed: twin(alloc, freed, copied),
        },
        Answer::Turn { from, port, freed } => Answer::Turn {
            from: *from,
            port: *port,
            freed: twin(alloc, freed, copied),
        },
        Answer::In {
            to,
            port,
            from,
            peer,
            freed,
        } => Answer::In {
            to: *to,
            port: *port,
            from: *from,
            peer: *peer,
            freed: twin(alloc, freed, copied),
        },
        Answer::Kept { port, until } => Answer::Kept {
            port: *port,
            until: *until,
        },
        Answer::Held => Answer::Held,
        Answer::Refused { cause, freed } => Answer::Refused {
            cause: *cause,
            freed: twin(alloc, freed, copied),
        },
    }
}

/// The parcels once more, of which there are none or a copy is at hand.
fn twin(alloc: Global, parcels: &Parcels, copied: Parcels) -> Parcels
    requires { (parcels.now ≡ []) ⊎ (parcels.now ≡ copied) }
    ensures { result ≡ parcels.now }
{
    if parcels.as_slice().is_empty() {
        Parcels::new(alloc)
    } else {
        copied
    }
}
