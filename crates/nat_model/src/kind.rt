//! Which answers an ask may have.

ghost use Rattle.std.specs.Prelude.{◌↔◌, IsTrue};
ghost use Rattle.nat_model.specs.Kind.{IsMachineCause, IsOutwardAnswer, IsInwardAnswer, IsKeepAnswer, IsAnswerTo};

use crate::{Answer, Ask};
use octets::Cause;

/// Whether a machine refuses for this cause: for those from `NoBasicRule` to `NoPort`.
fn is_machine_cause(cause: Cause) -> bool
    ensures { IsTrue result ↔ IsMachineCause cause }
{
    let number = cause.number();
    Cause::NoBasicRule.number() <= number && number <= Cause::NoPort.number()
}

impl Answer {
    /// Whether a packet from the LAN may have this answer: it goes out, turns, waits, or is refused for a cause from
    /// `NoBasicRule` to `NoPort`.
    pub fn is_outward_answer(&self) -> bool
        ensures { IsTrue result ↔ IsOutwardAnswer self.now }
    {
        match self {
            Answer::Out { .. } | Answer::Turn { .. } | Answer::Held => true,
            Answer::In { .. } | Answer::Kept { .. } => false,
            Answer::Refused { cause, .. } => is_machine_cause(*cause),
        }
    }

    /// Whether a packet to the edge, from the access network or turned, may have this answer: it comes in, waits, or is
    /// refused for such a cause.
    pub fn is_inward_answer(&self) -> bool
        ensures { IsTrue result ↔ IsInwardAnswer self.now }
    {
        match self {
            Answer::In { .. } | Answer::Held => true,
            Answer::Out { .. } | Answer::Turn { .. } | Answer::Kept { .. } => false,
            Answer::Refused { cause, .. } => is_machine_cause(*cause),
        }
    }

    /// Whether a port that is to be kept may have this answer: it is kept, or refused for such a cause.
    pub fn is_keep_answer(&self) -> bool
        ensures { IsTrue result ↔ IsKeepAnswer self.now }
    {
        match self {
            Answer::Kept { .. } => true,
            Answer::Out { .. } | Answer::Turn { .. } | Answer::In { .. } | Answer::Held => false,
            Answer::Refused { cause, .. } => is_machine_cause(*cause),
        }
    }

    /// Whether this is an answer of the kind that the ask has.
    pub fn is_answer_to(&self, ask: &Ask) -> bool
        ensures { IsTrue result ↔ IsAnswerTo ask.now self.now }
    {
        match ask {
            Ask::Outward { .. } => self.is_outward_answer(),
            Ask::Inward { .. } => self.is_inward_answer(),
            Ask::Keep { .. } => self.is_keep_answer(),
        }
    }
}
