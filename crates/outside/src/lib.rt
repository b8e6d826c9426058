//! What the domain reads from and writes to: a folder of files, a sink for text, and a gate between
//! workers, as traits with a meaning that proofs can name; with versions over memory and over the
//! operating system.
#![tactic(auto)]

mod equal;
mod file_id;
mod folder;
mod gate;
mod memory_folder;
mod memory_sink;
mod real_folder;
mod real_sink;
mod sink;
mod store;
mod sure_folder;
mod sure_sink;
mod whole;

pub use equal::equal_values_are_the_same;
pub use file_id::{Failure, FileId, Operation, OutFault};
pub use folder::Folder;
pub use gate::{FreeGate, Gate};
pub use memory_folder::MemFolder;
pub use memory_sink::MemSink;
pub use real_folder::RealFolder;
pub use real_sink::RealSink;
pub use sink::Sink;
pub use sure_folder::SureFolder;
pub use sure_sink::SureSink;
