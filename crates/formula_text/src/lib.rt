//! The lines of answers: formulas, blocks and pairs, read and written.
//!
//! Shape: a file is lines, a line is parts between blanks, and the parts say a formula, a block or
//! a pair (`specs/Answers.antt`). Values, numbers and fractions are single parts.
//! Seen as: the list of what the lines say, with their numbers (`answers_of`), and the list of the
//! formulas among it. What is written is one text for each list of formulas (`text_of_dag`).
//! Numbers: lines count from 1, formulas from 0. A file has at most 2^26 bytes.
//! Steps: each line is cut into its parts once. No clause says so.
//! Source: the grammar is this project's own. Digits are written by `itoa`.
#![tactic(auto)]

mod answer;
mod fault;
mod formula_line;
mod laws;
mod numbers;
mod pieces;
mod reading;
mod said;
mod values;
mod writing;

pub use answer::{AnswerText, BlockLine};
pub use fault::DagFault;
pub use laws::{answer_texts_are_read, answers_have_formulas_and_blocks, dag_texts_are_read};
pub use reading::{read_answers, read_certificate};
pub use writing::dag_text;
