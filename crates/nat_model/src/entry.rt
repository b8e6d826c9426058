use crate::{Answer, Ask};

/// Who asked: the worker, the record in whose journey the hop is, and the hop's number in it, from 0.
#[derive(Clone, Copy, Debug, PartialEq, Eq, Hash)]
pub struct Who {
    pub worker: u32,
    pub rec: u32,
    pub hop: u64,
}

/// Who asked, the generation that they saw, and the generation whose rules were used.
#[derive(Clone, Copy, Debug, PartialEq, Eq, Hash)]
pub struct Mark {
    pub who: Who,
    pub seen: u32,
    pub used: u32,
}

/// One step of an edge's history: who asked, at what time in microseconds, what, and the answer.
#[derive(Debug, Drop)]
pub struct Entry {
    pub mark: Mark,
    pub now: u64,
    pub ask: Ask,
    pub answer: Answer,
}
