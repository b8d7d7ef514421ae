//! The top call: it reads the words and the file, and writes the answer, or a line that says why
//! there is none.
//!
//! Shape: words, then the bytes of the file, then its coalgebra, then the text that is asked for;
//! each stage gives the next its value, or the status that the run ends with.
//! Seen as: the words, the files of a folder, the bytes that two sinks took, and a status. What a
//! command prints stands in `specs/Outputs.antt`, what a status says in `specs/Outcome.antt`.
//! Limits: a file has at most 67,108,864 bytes. The output is made whole before its first byte is
//! written.
#![tactic(auto)]

mod answering;
mod ended;
mod laws;
mod lines;
mod outputs;
mod reading;
mod status;
mod top;
mod trial;
mod verdicts;

pub use command_line::WordList;
pub use ended::Ended;
pub use laws::{one_stage_stops, runs_end_so};
pub use status::Status;
pub use top::{answer, run};
