//! Capture files in the classic pcap format: a reader of every form of it, and a writer of one.
#![tactic(auto)]

mod entry;
mod equal;
mod fault;
mod form;
mod frame;
mod laws;
mod reader;
mod records;
mod writer;

pub use equal::equal_faults_are_the_same;
pub use fault::CaptureFault;
pub use laws::{followers_change_nothing, reading_is_by_the_grammar, written_is_read};
pub use reader::read;
pub use records::{Record, Records};
pub use writer::Writer;
