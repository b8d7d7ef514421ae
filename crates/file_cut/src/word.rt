//! A word of a tree.
ghost use Rattle.std.specs.Prelude.{◌≡◌};

use std::marker::Model;

/// A word, as a slice of the buffer. Clauses see its bytes alone, and not where they stand, so two
/// trees with the same words are equal.
#[derive(Debug, Drop)]
pub struct Word<'a> {
    text: &'a [u8],
}

impl<'a> Model for Word<'a> {
    ghost use Rattle.std.specs.Prelude.{ℕ, List};

    ghost Value = { List ℕ };

    ghost view = { λ word. word.text.now };
}

impl<'a> Word<'a> {
    /// The word of these bytes.
    pub fn new(text: &'a [u8]) -> Word<'a>
        ensures { result ≡ text.now }
    {
        Word { text }
    }

    /// Its bytes, where they stand in the buffer.
    pub fn bytes(&self) -> &'a [u8]
        ensures { result.now ≡ self.now }
    {
        self.text
    }
}
