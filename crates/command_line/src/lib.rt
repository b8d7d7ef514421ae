//! The words of the command line, and what they ask for.
//!
//! Shape: the words are read by `clap` as one simple command, `ACTION FILE REST.. --stats`; a table
//! of commands says which lines of that form are requests.
//! Seen as: a list of words, each a list of bytes, and a request (`specs/Requests.antt`).
//! Limits: a command that is not in the table makes no request. What is said of words that make
//! none is told by tests alone.
#![tactic(auto)]

mod laws;
mod parts;
mod request;
mod usage;
mod word_list;

pub use laws::plain_words_are_taken;
pub use request::{Request, Task, asked_by};
pub use usage::complaint;
pub use word_list::WordList;
