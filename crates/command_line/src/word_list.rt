// A register of words.
ghost use Rattle.std.specs.Prelude.{◌≡◌, ◌<◌, [], ◌∷◌, ◌++◌, length, map, string_bytes, OnOk, OnErr, Some, slice_get};

use std::alloc::{AllocError, Global};
use std::marker::Model;

/// The words of a command line, in order, without the name of the program.
#[derive(Drop)]
pub struct WordList {
    alloc: Global,
    words: Vec<String>,
}

impl Model for WordList {
    ghost use Rattle.std.specs.Prelude.{List, ℕ, map, string_bytes};

    ghost Value = { List (List ℕ) };

    ghost view = { λ list. map string_bytes list.words.items };
}

impl WordList {
    /// A register without a word.
    pub fn new(alloc: Global) -> WordList
        ensures no_word { result ≡ [] }
    {
        WordList {
            alloc,
            words: Vec::new(alloc),
        }
    }

    /// Puts a word last. Without memory the register is unchanged.
    pub fn add(&mut self, word: &str) -> Result<(), AllocError>
        ensures word_is_last { OnOk result (self.new ≡ self.old ++ word.now ∷ []) }
        ensures unchanged_without_memory { OnErr result (self.new ≡ self.old) }
    {
        let word = String::from_str(self.alloc, word)?;
        self.words.push(word)?;
        Ok(())
    }

    /// How many words there are.
    pub fn len(&self) -> usize
        ensures count { result ≡ length self.now }
    {
        self.words.len()
    }

    /// The word at a place, from 0.
    pub fn word(&self, i: usize) -> &str
        requires { i < length self.now }
        ensures word_there { slice_get self.now i ≡ Some result.now }
    {
        self.words[i].as_str()
    }

    /// All words.
    pub(crate) fn texts(&self) -> &[String]
        ensures words { map string_bytes result.now ≡ self.now }
    {
        self.words.as_slice()
    }
}
