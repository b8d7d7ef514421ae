//! Judges anybody's answer: which states are a block, and by which formulas.
//!
//! Shape: an answer is formulas and block lines. A bad line is told first. Then three rules are
//! asked in turn: each state stands once; the blocks are stable; each formula holds at its states
//! alone. The first that fails tells a reason, and a yes means that the blocks are right.
//! Seen as: the verdict of `specs/Verdicts.antt`, which knows lists of states and truths alone.
//! Numbers: states and formulas count from 0, lines from 1. A text has at most 2^26 bytes.
//! Steps: names are looked up twice, each structure is relabelled once, and each formula up to the
//! last that is cited is evaluated once. No clause says so.
//! Source: the rules are this project's own.
#![tactic(auto)]

mod bad_lines;
mod fault;
mod judging;
mod laws;
mod likeness;
mod places;
mod reading;
mod standing;
mod truths;
mod verdict;

pub use fault::AnswerFault;
pub use judging::verify;
pub use laws::{passing_answers_are_right, there_is_one_verdict, verdicts_look_at_truths_alone};
pub use reading::read_formulas;
pub use verdict::{Reason, Verdict};
