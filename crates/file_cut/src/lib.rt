//! Lines, tokens and trees, cut out of the bytes of a file. All of them are slices of one buffer.
//!
//! Shape: a file is lines, a line is tokens, and the tokens of a structure line spell a head and a
//! tree. `lines` and `tokens` are iterators over slices: they copy nothing and take no memory.
//! Seen as: a line as its number and bytes (`specs/Lines.antt`), a token as its bytes and place
//! (`specs/Tokens.antt`), a tree as what its text spells (`specs/Trees.antt`), words as bytes.
//! Numbers: lines count from 1 and places in a line from 0. Both are at most 2^26.
//! Steps: each byte of a text is cut into a token once. No clause says so.
//! Limits: at most 64 brackets and `inj` are open at any place, which bounds the recursion.
#![tactic(auto)]

mod bytes;
mod cut;
mod fault;
mod laws;
mod line;
mod mark;
mod token;
mod tree;
mod word;

pub use bytes::{blank_len, is_word_byte, word_len};
pub use cut::{cut_line, cut_tree};
pub use fault::CutFault;
pub use laws::{lines_cover, one_reading, tokens_cover};
pub use line::{Line, LineIter, lines};
pub use token::{Token, TokenIter, tokens};
pub use tree::{Entry, Tree};
pub use word::Word;
