//! One customer edge and the relay behind it, for whole TCP and UDP packets that go out: which packets are served, and
//! what each becomes on the access network and in the core.
#![tactic(auto)]

mod captures;
mod edge;
mod ends;
mod replay;
mod served;
mod taken;
mod translated;

pub use captures::Captures;
pub use edge::OneEdge;
