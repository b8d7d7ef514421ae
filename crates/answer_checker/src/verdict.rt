//! What is said of an answer.

/// Why an answer is not right, by the first rule that fails. States and formulas are numbers.
#[derive(Clone, Copy, Debug, PartialEq, Eq)]
pub enum Reason {
    /// The state stands in no block line.
    Missing(u32),
    /// The state stands in block lines more than once.
    Twice(u32),
    /// The second state is not like the first, which is the first of its block.
    Unstable(u32, u32),
    /// The formula does not hold at exactly the states of its block line. It is wrong at the state.
    Wrong(u32, u32),
}

/// The verdict on an answer.
#[derive(Clone, Copy, Debug, PartialEq, Eq)]
pub enum Verdict {
    /// The answer is right.
    Yes,
    /// It is not, for this reason.
    No(Reason),
    /// The line with this number is bad.
    BadLine(u32),
}
