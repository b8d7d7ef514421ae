//! A table of distinct words.
ghost use Rattle.std.specs.Prelude.{◌≡◌, ◌+◌, ◌<◌, ◌≤◌, ◌^◌, ◌↔◌, [], ◌∷◌, ◌++◌, length, position, slice_get, Some, None, IsTrue, IfOk, OnErr, if◌then◌else◌};
ghost use Rattle.file_cut.specs.Bytes.{IsName};
ghost use Rattle.functor_terms.specs.Words.{is_same_word, place_of, AreNames};

use indexmap::IndexSet;
use std::alloc::{AllocError, Global};
use std::marker::Model;

/// So many words are compared one by one, which takes less time than a hash.
const FEW: usize = 8;

/// Distinct words, numbered from 0 in the order in which they came. The words are lent, not copied.
#[derive(Drop)]
pub struct Labels<'a> {
    words: IndexSet<&'a [u8]>,
}

impl<'a> Model for Labels<'a> {
    ghost use Rattle.std.specs.Prelude.{ℕ, List, map};
    ghost use Rattle.functor_terms.specs.Words.{AreNames};

    ghost Value = { List (List ℕ) };

    ghost view = { λ l. map (λ w. w.now) l.words.keys };

    ghost invariant = { λ l. AreNames (map (λ w. w.now) l.words.keys) };
}

impl<'a> Labels<'a> {
    /// No words.
    pub fn new(alloc: Global) -> Labels<'a>
        ensures { result ≡ [] }
    {
        Labels {
            words: IndexSet::new(alloc),
        }
    }

    /// What holds of every such table. Nothing is read or done.
    pub fn are_names(&self)
        ensures { AreNames self.now }
    {
        let _words = &self.words;
    }

    /// How many words there are.
    pub fn len(&self) -> u32
        ensures { result ≡ length self.now }
    {
        self.words.len() as u32
    }

    /// The number of a word, and None exactly where it is not one of these.
    pub fn number(&self, word: &[u8]) -> Option<u32>
        ensures { result ≡ place_of word.now self.now }
    {
        if self.words.len() <= FEW {
            return place_among(self.words.as_slice(), word);
        }
        match self.words.get_index_of(&word) {
            Some(i) => Some(i as u32),
            None => None,
        }
    }

    /// The word with a number.
    pub fn word(&self, i: u32) -> &'a [u8]
        requires { i < length self.now }
        ensures { slice_get self.now i ≡ Some result.now }
    {
        self.words.as_slice()[i as usize]
    }

    /// Puts a word last, and says whether it is new. A word that is there changes nothing, and
    /// neither does a call for which memory was wanting.
    pub fn add(&mut self, word: &'a [u8]) -> Result<bool, AllocError>
        requires room { length self.old + 1 < 2 ^ 32 }
        requires name { IsName word.now }
        ensures new { IfOk result (λ new. IsTrue new ↔ (place_of word.now self.old ≡ None)) }
        ensures words { IfOk result (λ new.
            self.new ≡ (if new then self.old ++ word.now ∷ [] else self.old)) }
        ensures unchanged { OnErr result (self.new ≡ self.old) }
    {
        Ok(self.words.insert(word)?)
    }
}

/// The place of a word among few words, each of which is compared with it.
fn place_among(words: &[&[u8]], word: &[u8]) -> Option<u32>
    requires few { length words.now ≤ 8 }
    ensures { result ≡ position (λ known. is_same_word word.now known.now) words.now }
{
    match words.iter().position(|known| word == *known) {
        Some(place) => Some(place as u32),
        None => None,
    }
}
