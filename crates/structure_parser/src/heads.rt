//! The first pass: the first word of each line is numbered.
//!
//! In a file whose lines are all structure lines these words are the heads, so that a state may be
//! named before its line. In any other file they are not asked for.
ghost use Rattle.std.specs.Prelude.{◌≡◌, ◌+◌, ◌<◌, ◌≤◌, ◌^◌, [], None, Some, not, length, IfOk, MatchOption, if◌then◌else◌};
ghost use Rattle.std.specs.List.{AllByRecursion};
ghost use Rattle.file_cut.specs.Tokens.{mark_of};
ghost use Rattle.structure_parser.specs.Reading.{word_in, first_word as the_first_word, with_word, is_old, names_in, fresh_in};

use file_cut::{LineIter, is_word_byte, tokens};
use std::alloc::{AllocError, Global};
use typing::Names;

/// The first words of lines.
#[derive(Drop)]
pub(crate) struct Heads<'a> {
    /// Each once, in the order of their first lines.
    pub names: Names<'a>,
    /// How many lines stand before the first whose word stands before it.
    pub fresh: u32,
}

/// The token, if it is a name.
fn name_of<'a>(token: &'a [u8]) -> Option<&'a [u8]>
    ensures { MatchOption result (word_in (mark_of token.now) ≡ None) (λ word.
        word_in (mark_of token.now) ≡ Some word.now) }
{
    let first = token.first()?;
    if !is_word_byte(*first) || token == b"inj".as_slice() {
        return None;
    }
    Some(token)
}

/// The name with which a line begins.
fn first_word<'a>(line: &'a [u8]) -> Option<&'a [u8]>
    requires { length line.now ≤ 2 ^ 26 }
    ensures { MatchOption result (the_first_word line.now ≡ None) (λ word.
        the_first_word line.now ≡ Some word.now) }
{
    let mut tokens = tokens(line);
    let first = tokens.next()?;
    name_of(first.text)
}

/// Puts the first word of a line last, and says whether the line has none or a new one.
fn add_first<'a>(names: &mut Names<'a>, line: &'a [u8]) -> Result<bool, AllocError>
    requires short { length line.now ≤ 2 ^ 26 }
    requires room { length names.old + 1 < 2 ^ 32 }
    ensures new { IfOk result (λ new. new ≡ not (is_old names.old (the_first_word line.now))) }
    ensures names { IfOk result (λ _.
        names.new ≡ with_word names.old (the_first_word line.now)) }
{
    match first_word(line) {
        Some(word) => names.add(word),
        None => Ok(true),
    }
}

/// How many lines have new words, with one more if none was old.
fn counted(fresh: u32, repeated: bool) -> u32
    requires { fresh + 1 < 2 ^ 32 }
    ensures { result ≡ (if repeated then fresh else fresh + 1) }
{
    if repeated { fresh } else { fresh + 1 }
}

/// The first words of all lines.
pub(crate) fn first_words<'a>(alloc: Global, lines: LineIter<'a>) -> Result<Heads<'a>, AllocError>
    requires few { length lines + 1 < 2 ^ 32 }
    requires short { AllByRecursion (λ line. length line.text ≤ 2 ^ 26) lines }
    ensures names { IfOk result (λ heads. heads.names ≡ names_in [] lines.entry) }
    ensures fresh { IfOk result (λ heads. heads.fresh ≡ fresh_in [] lines.entry) }
{
    let mut names = Names::new(alloc);
    let mut fresh = 0u32;
    let mut repeated = false;
    'lines: for line in lines {
        let is_new = add_first(&mut names, line.text)?;
        repeated = repeated | !is_new;
        fresh = counted(fresh, repeated);
    }
    Ok(Heads { names, fresh })
}
