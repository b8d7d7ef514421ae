//! The names of the states.
ghost use Rattle.std.specs.Prelude.{◌≡◌, ◌+◌, ◌<◌, ◌^◌, ◌↔◌, [], ◌∷◌, ◌++◌, length, slice_get, Some, None, IsTrue, IfOk, OnErr, if◌then◌else◌};
ghost use Rattle.file_cut.specs.Bytes.{IsName};
ghost use Rattle.functor_terms.specs.Words.{place_of, AreNames};

use functor_terms::Labels;
use std::alloc::{AllocError, Global};
use std::marker::Model;

/// The names of the states, numbered from 0 in the order in which they came. They are slices of the
/// file's buffer, and not copied.
#[derive(Drop)]
pub struct Names<'a> {
    words: Labels<'a>,
}

impl<'a> Model for Names<'a> {
    ghost use Rattle.std.specs.Prelude.{ℕ, List};
    ghost use Rattle.functor_terms.specs.Words.{AreNames};

    ghost Value = { List (List ℕ) };

    ghost view = { λ n. n.words };
}

impl<'a> Names<'a> {
    /// No names yet.
    pub fn new(alloc: Global) -> Names<'a>
        ensures { result ≡ [] }
    {
        Names {
            words: Labels::new(alloc),
        }
    }

    /// What holds of the names of every file. Nothing is read or done.
    pub fn are_names(&self)
        ensures { AreNames self.now }
    {
        self.words.are_names();
    }

    /// How many states there are.
    pub fn len(&self) -> u32
        ensures { result ≡ length self.now }
    {
        self.words.len()
    }

    /// The number of the state with this name, and None exactly where there is none.
    pub fn number(&self, word: &[u8]) -> Option<u32>
        ensures { result ≡ place_of word.now self.now }
    {
        self.words.number(word)
    }

    /// The name of a state.
    pub fn name(&self, i: u32) -> &'a [u8]
        requires { i < length self.now }
        ensures { slice_get self.now i ≡ Some result.now }
    {
        self.words.word(i)
    }

    /// Puts a name last, and says whether it is new. A name that is there changes nothing, and
    /// neither does a call for which memory was wanting.
    pub fn add(&mut self, head: &'a [u8]) -> Result<bool, AllocError>
        requires room { length self.old + 1 < 2 ^ 32 }
        requires name { IsName head.now }
        ensures new { IfOk result (λ new. IsTrue new ↔ (place_of head.now self.old ≡ None)) }
        ensures names { IfOk result (λ new.
            self.new ≡ (if new then self.old ++ head.now ∷ [] else self.old)) }
        ensures unchanged { OnErr result (self.new ≡ self.old) }
    {
        self.words.add(head)
    }
}
