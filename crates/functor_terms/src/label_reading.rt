//! Labels of constants and exponents, read from their tokens.
ghost use Rattle.std.specs.Prelude.{◌≡◌, false, ◌<◌, ◌≤◌, length, IsTrue, IfOk, MatchOption};
ghost use Rattle.std.specs.Char.{is_ascii_digit};
ghost use Rattle.std.specs.List.{list_all};
ghost use Rattle.std.specs.Str.Parse.{digits_value};
ghost use Rattle.file_cut.specs.Bytes.{IsWord};
ghost use Rattle.functor_terms.specs.Terms.{label_limit, AreLabels};
ghost use Rattle.file_cut.specs.Tokens.{is_inj as the_is_inj};
ghost use Rattle.functor_terms.specs.Ahead.{is_bound};
ghost use Rattle.functor_terms.specs.Reading.{Gives, word_at, words_at, braces_at, labels_at};

use crate::ahead::{Ahead, Wanted};
use crate::fault::TermFault;
use crate::label_set::number_below;
use crate::labels::Labels;
use crate::node::LabelSet;
use crate::part::LABEL_LIMIT;
use crate::sign::Sign;
use file_cut::Word;
use std::alloc::Global;

/// The number that digits stand for, if it is from 1 to 65,536.
fn bound(digits: &[u8]) -> Option<u32>
    requires some { 0 < length digits.now }
    requires digits { IsTrue (list_all is_ascii_digit digits.now) }
    ensures { MatchOption result (is_bound (digits_value 10 digits.now) ≡ false)
        (λ n. (n ≡ digits_value 10 digits.now) × (0 < n) × (n ≤ label_limit)) }
{
    match number_below(LABEL_LIMIT + 1, digits) {
        Some(0) => None,
        bound => bound,
    }
}

/// Whether the word is `inj`, which names nothing.
fn is_inj(word: &Word) -> bool
    ensures { result ≡ the_is_inj word.now }
{
    word.bytes() == b"inj".as_slice()
}

/// A word.
fn word<'a>(ahead: Ahead<'a>) -> Result<(Word<'a>, Ahead<'a>), TermFault>
    ensures word { Gives result (word_at ahead.entry) }
    ensures bytes { IfOk result (λ found. IsWord found.0) }
{
    let Some(sign) = ahead.first() else {
        return Err(TermFault::Grammar);
    };
    match sign {
        Sign::Word(word) => {
            let word = Word::new(word.bytes());
            Ok((word, ahead.others()))
        }
        _ => Err(TermFault::Grammar),
    }
}

/// Distinct names with commas between them, at most 65,536.
fn words<'a>(alloc: Global, ahead: Ahead<'a>) -> Result<(Labels<'a>, Ahead<'a>), TermFault>
    ensures { Gives result (words_at ahead.entry) }
{
    let mut words = Labels::new(alloc);
    let mut left = ahead;
    'words: while words.len() < LABEL_LIMIT {
        let (word, behind) = word(left)?;
        if is_inj(&word) {
            return Err(TermFault::Grammar);
        }
        if !words.add(word.bytes())? {
            return Err(TermFault::Grammar);
        }
        match behind.behind(Wanted::Comma) {
            Ok(rest) => left = rest,
            Err(same) => return Ok((words, same)),
        }
    }
    Err(TermFault::Grammar)
}

/// The words of braces that are open, up to their end.
fn braces<'a>(alloc: Global, ahead: Ahead<'a>) -> Result<(LabelSet<'a>, Ahead<'a>), TermFault>
    ensures { Gives result (braces_at ahead.entry) }
{
    let (words, behind) = words(alloc, ahead)?;
    match behind.behind(Wanted::BraceEnd) {
        Ok(rest) => Ok((LabelSet::Listed(words), rest)),
        Err(_) => Err(TermFault::Grammar),
    }
}

/// The labels of a constant or an exponent.
pub fn labels<'a>(alloc: Global, ahead: Ahead<'a>) -> Result<(LabelSet<'a>, Ahead<'a>), TermFault>
    ensures { Gives result (labels_at ahead.entry) }
{
    let Some(sign) = ahead.first() else {
        return Err(TermFault::Grammar);
    };
    match sign {
        Sign::Digits(digits) => match bound(digits.bytes()) {
            Some(n) => Ok((LabelSet::Below(n), ahead.others())),
            None => Err(TermFault::Grammar),
        },
        Sign::OpenBrace => braces(alloc, ahead.others()),
        _ => Err(TermFault::Grammar),
    }
}
