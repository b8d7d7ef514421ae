//! What the parts of a line say.
ghost use Rattle.std.specs.Prelude.{◌≡◌, ◌∷◌, map, ℕ, option_map, Some, IfSome, IfOk};
ghost use Rattle.std.specs.List.{list_all};
ghost use Rattle.formulas.specs.Formulas.{CitesBelow};
ghost use Rattle.formula_text.specs.Answers.{is_word as is_name, answer_of, taken, defined_by, formula_name};
ghost use Rattle.formula_text.specs.Answers.{block_of as is_block, separates_of as is_separation};
ghost use Rattle.formula_text.specs.Answers.{equivalent_of as is_equivalence};
ghost use Rattle.formula_text.specs.Numbers.{is_same};
ghost use Rattle.formula_text.specs.Said.{answer_in, CitesEarlier};

use crate::formula_line::{body_of, cited};
use file_cut::is_word_byte;
use formulas::Formula;
use itoa::Buffer;
use std::alloc::{AllocError, Global};

/// What a line says.
#[derive(Debug, Drop)]
pub enum Said<'a> {
    /// The next formula.
    Defines(Formula),
    /// A formula of the block of these states.
    Block(u32, Vec<&'a [u8]>),
    /// A formula that holds at the first state and not at the second.
    Separates(&'a [u8], &'a [u8], u32),
    /// Two states that are equivalent.
    Equivalent(&'a [u8], &'a [u8]),
}

/// What is said, where lines of pairs are taken or say nothing.
pub fn taken_said<'a>(pairs: bool, said: Option<Said<'a>>) -> Option<Said<'a>>
    ensures taken { option_map answer_in result ≡ taken pairs (option_map answer_in said.entry) }
    ensures same { IfSome result (λ s. said.entry ≡ Some s) }
{
    match said? {
        Said::Separates(x, y, f) => {
            if pairs {
                Some(Said::Separates(x, y, f))
            } else {
                None
            }
        }
        Said::Equivalent(x, y) => {
            if pairs {
                Some(Said::Equivalent(x, y))
            } else {
                None
            }
        }
        other => Some(other),
    }
}

/// Whether the part is one or more bytes of words.
fn is_word(part: &[u8]) -> bool
    ensures { result ≡ is_name part.now }
{
    for byte in part {
        if !is_word_byte(*byte) {
            return false;
        }
    }
    !part.is_empty()
}

/// Whether each part is a word.
fn are_words(parts: &[&[u8]]) -> bool
    ensures { result ≡ list_all is_name (map (λ part. part.now) parts.now) }
{
    for part in parts {
        if !is_word(part) {
            return false;
        }
    }
    true
}

/// A block: its formula and the names of its states, one or more.
fn block_of<'a>(alloc: Global, k: u32, parts: &[&'a [u8]]) -> Result<Option<Said<'a>>, AllocError>
    ensures said { IfOk result (λ said.
        option_map answer_in said ≡ is_block k (map (λ part. part.now) parts.now)) }
    ensures cites { IfOk result (λ said. IfSome said (CitesEarlier k)) }
{
    match parts {
        [] => Ok(None),
        [_] => Ok(None),
        [f, names @ ..] => {
            if !are_words(names) {
                return Ok(None);
            }
            let Some(f) = cited(k, f) else {
                return Ok(None);
            };
            Ok(Some(Said::Block(f, Vec::from_slice(alloc, names)?)))
        }
    }
}

/// Two states and a formula that holds at the first of them alone.
fn separates_of<'a>(k: u32, parts: &[&'a [u8]]) -> Option<Said<'a>>
    ensures said { option_map answer_in result
        ≡ is_separation k (map (λ part. part.now) parts.now) }
    ensures cites { IfSome result (λ said. (n : ℕ) → CitesEarlier n said) }
{
    let [x, y, f] = parts else {
        return None;
    };
    if is_word(x) && is_word(y) {
        Some(Said::Separates(x, y, cited(k, f)?))
    } else {
        None
    }
}

/// Two states that are equivalent.
fn equivalent_of<'a>(parts: &[&'a [u8]]) -> Option<Said<'a>>
    ensures said { option_map answer_in result
        ≡ is_equivalence (map (λ part. part.now) parts.now) }
    ensures cites { IfSome result (λ said. (n : ℕ) → CitesEarlier n said) }
{
    let [x, y] = parts else {
        return None;
    };
    if is_word(x) && is_word(y) {
        Some(Said::Equivalent(x, y))
    } else {
        None
    }
}

/// Whether the part is the name of formula k.
fn is_name_of(k: u32, part: &[u8]) -> bool
    ensures { result ≡ is_same part.now (formula_name k) }
{
    match part {
        [b'f', digits @ ..] => digits == Buffer::new().format(k).as_bytes(),
        _ => false,
    }
}

/// Formula k, as the parts of its line define it.
fn defined<'a>(
    alloc: Global,
    k: u32,
    name: &[u8],
    rest: &[&'a [u8]],
) -> Result<Option<Said<'a>>, AllocError>
    ensures said { IfOk result (λ said.
        option_map answer_in said ≡ defined_by k name.now (map (λ part. part.now) rest.now)) }
    ensures cites { IfOk result (λ said. IfSome said (CitesEarlier k)) }
{
    let [sign, body @ ..] = rest else {
        return Ok(None);
    };
    if is_name_of(k, name) && *sign == b"=".as_slice() {
        match body_of(alloc, k, body)? {
            None => Ok(None),
            Some(f) => Ok(Some(Said::Defines(f))),
        }
    } else {
        Ok(None)
    }
}

/// What a line of these parts says, behind k formulas.
pub fn said_by<'a>(
    alloc: Global,
    k: u32,
    parts: &[&'a [u8]],
) -> Result<Option<Said<'a>>, AllocError>
    ensures said { IfOk result (λ said.
        option_map answer_in said ≡ answer_of k (map (λ part. part.now) parts.now)) }
    ensures cites { IfOk result (λ said. IfSome said (CitesEarlier k)) }
{
    let [word, rest @ ..] = parts else {
        return Ok(None);
    };
    if *word == b"block".as_slice() {
        block_of(alloc, k, rest)
    } else if *word == b"separates".as_slice() {
        Ok(separates_of(k, rest))
    } else if *word == b"equivalent".as_slice() {
        Ok(equivalent_of(rest))
    } else {
        defined(alloc, k, word, rest)
    }
}
