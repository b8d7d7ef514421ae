//! Why the formulas of an answer were not read.
use std::alloc::AllocError;
use thiserror::Error;

/// Why the formulas of an answer were not read.
#[derive(Debug, Drop, Error)]
pub enum AnswerFault {
    /// The first line that is none of the forms, or else the least with a modality that does not
    /// fit.
    #[error("line {line} is no line of an answer")]
    BadLine { line: u32 },
    /// Memory was wanting.
    #[error("out of memory")]
    NoMemory,
}
