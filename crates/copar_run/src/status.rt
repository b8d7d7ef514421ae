//! How a run ended.
ghost use Rattle.std.specs.Prelude.{◌≡◌};
ghost use Rattle.copar_run.specs.Outcome.{code_of};

use typing::TypeKind;

/// How a run ended.
#[derive(Clone, Copy, Debug, PartialEq, Eq)]
pub enum Status {
    /// The output was written whole.
    Done,
    /// The same, and it says that an answer is not right.
    No,
    /// The words ask for nothing that the program does.
    Usage,
    /// This line of the file is the first that is not of its form. Where there is no functor line,
    /// it is the number of the file's line feeds and one.
    Grammar { line: u32 },
    /// This line of the file does not fit, and is the first.
    TypeFault { line: u32, kind: TypeKind },
    /// This line is the first with a number over its bound, or the first at which the common
    /// denominator is over its limit.
    WeightBound { line: u32 },
    /// This line is the first with a distribution whose weights do not sum to 1.
    SumFault { line: u32 },
    /// This word, counted from 0 behind the file, is the first that names no state.
    UnknownState { place: usize },
    /// This line of the second file is the first that is not of its form, or that does not fit.
    AnswerText { line: u32 },
    /// A read of a file failed. An absent file is such a failure.
    ReadFault,
    /// A write of the output failed. What was written is the output from its front.
    WriteFault,
    /// Memory was wanting.
    NoMemory,
    /// A file has more than 67,108,864 bytes.
    TooLong,
}

impl Status {
    /// The number that the program ends with.
    pub fn code(&self) -> u8
        ensures number { result ≡ code_of self.now }
    {
        match self {
            Status::Done => 0,
            Status::No => 1,
            Status::Usage => 2,
            Status::Grammar { line: _ } => 3,
            Status::TypeFault { line: _, kind: _ } => 4,
            Status::WeightBound { line: _ } => 5,
            Status::SumFault { line: _ } => 6,
            Status::UnknownState { place: _ } => 7,
            Status::AnswerText { line: _ } => 8,
            Status::ReadFault => 9,
            Status::WriteFault => 10,
            Status::NoMemory => 11,
            Status::TooLong => 12,
        }
    }
}
