//! What the top calls answer on known inputs, over folders and sinks in memory.

mod calls;
mod files;
mod lines;
mod printed;
mod refusals;
mod replays;
