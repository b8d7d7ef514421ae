//! What the program does not do itself: read files, write bytes, and count steps.
//!
//! Shape: a trait for a folder of files and one for a sink of bytes, each with a form in memory.
//! Seen as: a folder is a map from names to bytes, a sink the bytes that it took. Either may keep
//! silent on them, as a real disk does. Both count their faults, so that a caller who is told
//! `Failed` can show that a count rose. A counter of steps is seen as its count.
//! Numbers: counts of calls and faults have 64 bits, and stay at the greatest once they are there.
//! Limits: one call of a trait moves one piece; `read_all` and `put_all` move whole files of at
//! most 67,108,864 bytes, and whole texts.
#![tactic(auto)]

mod folder;
mod mem_folder;
mod mem_sink;
mod sink;
mod steps;
#[cfg(test)]
mod tests;
mod whole;

pub use folder::{Folder, Piece};
pub use mem_folder::MemFolder;
pub use mem_sink::MemSink;
pub use sink::{Sink, Wrote};
pub use steps::Steps;
pub use whole::{ReadAll, put_all, read_all};
