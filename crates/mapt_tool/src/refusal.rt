use mapt_setup::{SetupCause, SetupFault};
use std::fmt;

/// Why a configuration or an option file is refused: a sentence, and the status behind it.
#[derive(Clone, Copy, Debug)]
pub(crate) struct Refusal {
    pub cause: SetupCause,
    pub place: u32,
}

impl fmt::Display for Refusal {
    fn fmt<W: fmt::Write>(&self, f: &mut fmt::Formatter<W>) -> fmt::Result {
        let (cause, place) = (self.cause, self.place);
        let fault = SetupFault::Refused(cause, place);
        write!(f, "{fault} [SetupRefused({cause:?}, {place})]")
    }
}
