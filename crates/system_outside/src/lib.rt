//! The files and the writers of the system, as the folder and the sinks that the top call asks for.
//!
//! Shape: an adapter for each. An answer of the system goes through one function that says what it
//! becomes (`piece_of`, `wrote_of`); the adapter counts the failures.
//! Seen as: a count of faults, which begins at 0. What a file holds and what a writer took is not
//! told, since no proof reaches there.
//! Limits: a file is read from its front on without a gap; a file that can't seek, as a pipe, can
//! be read so.
#![tactic(auto)]

mod answers;
mod disk;
mod stream;
#[cfg(test)]
mod tests;

pub use answers::{piece_of, wrote_of};
pub use disk::DiskFolder;
pub use stream::Stream;
