//! The labels of a constant or an exponent.
ghost use Rattle.std.specs.Prelude.{◌≡◌};
ghost use Rattle.functor_terms.specs.Terms.{label_count, label_number as the_label_number, number_below as number_below_of};

use crate::node::LabelSet;

impl<'a> LabelSet<'a> {
    /// How many labels there are.
    pub fn len(&self) -> u32
        ensures { result ≡ label_count self.now }
    {
        match self {
            LabelSet::Listed(words) => words.len(),
            LabelSet::Below(n) => *n,
        }
    }

    /// The number of a label, and None exactly where the word is not one.
    pub fn number(&self, word: &[u8]) -> Option<u32>
        ensures { result ≡ the_label_number self.now word.now }
    {
        match self {
            LabelSet::Listed(words) => words.number(word),
            LabelSet::Below(n) => number_below(*n, word),
        }
    }
}

/// The value of a word of decimal digits alone, if it is below n.
pub fn number_below(n: u32, word: &[u8]) -> Option<u32>
    ensures { result ≡ number_below_of n word.now }
{
    if word.is_empty() || n == 0 {
        return None;
    }
    let mut value = 0u64;
    for byte in word {
        if !byte.is_ascii_digit() {
            return None;
        }
        value = value * 10 + u64::from(*byte - b'0');
        if value >= u64::from(n) {
            return None;
        }
    }
    Some(value as u32)
}
