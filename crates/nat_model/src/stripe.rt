use crate::Who;
use frag_table::{FragAnswer, FragAsk};

/// One step of a stripe's history: who asked, at what time in microseconds, what, and the answer.
#[derive(Debug, Drop)]
pub struct StripeEntry {
    pub who: Who,
    pub now: u64,
    pub ask: FragAsk,
    pub answer: FragAnswer,
}
