//! The lines of a file that are not skipped, each with its number.
//!
//! Shape: an iterator over what is left of the buffer. A line is found from its front: the blanks,
//! and then the bytes up to its line feed, so that no byte is passed twice.
//! Seen as: the list of the lines that are left (`lines_from`).
ghost use Rattle.std.specs.Prelude.{◌≡◌, ◌≤◌, ◌<◌, ◌+◌, ◌^◌, ◌∷◌, ℕ, [], length, drop};
ghost use Rattle.std.specs.Prelude.{MatchOption};
ghost use Rattle.file_cut.specs.Lines.{is_skipped, lines_from, lines_of, without_return};
ghost use Rattle.file_cut.specs.Lines.{numbered_line, begins_note as is_begun_note, IsFirstLine};

use crate::bytes::{blank_len, line_len};
use std::marker::Model;

/// A line that is not skipped, as a slice of the buffer without its line end. Lines count from 1.
#[derive(Clone, Copy, Debug)]
pub struct Line<'a> {
    pub number: u32,
    pub text: &'a [u8],
}

/// What is left of a file: the bytes, and the number of the line that they begin.
#[derive(Drop)]
pub struct LineIter<'a> {
    rest: &'a [u8],
    number: u32,
}

impl<'a> Model for LineIter<'a> {
    ghost use Rattle.std.specs.Prelude.{List, ◌+◌, ◌≤◌, ◌^◌, length};
    ghost use Rattle.std.specs.Coded.{coded_list};
    ghost use Rattle.file_cut.specs.Lines.{Numbered, numbered_code, lines_from};

    ghost Value = { List Numbered };

    ghost coded = { coded_list numbered_code };

    ghost view = { λ lines. lines_from lines.number lines.rest.now };

    ghost invariant = { λ lines. lines.number + length lines.rest.now ≤ 2 ^ 26 + 1 };
}

/// A line without the carriage return at its end, if one stands there.
fn trimmed<'a>(line: &'a [u8]) -> &'a [u8]
    ensures { result.now ≡ without_return line.now }
{
    let Some((last, front)) = line.split_last() else {
        return line;
    };
    if *last == b'\r' { front } else { line }
}

/// No byte stands here, or a number sign stands first.
fn begins_note(behind_blanks: &[u8]) -> bool
    ensures { result ≡ is_begun_note behind_blanks.now }
{
    match behind_blanks {
        [] => true,
        [first, ..] => *first == b'#',
    }
}

/// What stands behind the line feed, if there is one.
fn behind_feed<'a>(text: &'a [u8]) -> &'a [u8]
    ensures { result.now ≡ drop 1 text.now }
{
    match text {
        [] => text,
        [_, rest @ ..] => rest,
    }
}

/// The first line of a text, whether it is skipped, and the text behind it.
#[derive(Clone, Copy)]
struct First<'a> {
    line: &'a [u8],
    skipped: bool,
    rest: &'a [u8],
}

fn first_line<'a>(text: &'a [u8]) -> First<'a>
    requires { 0 < length text.now }
    ensures line { IsFirstLine text.now result.line.now result.rest.now }
    ensures skipped { result.skipped ≡ is_skipped result.line.now }
{
    let indent = blank_len(text);
    let (_, behind_blanks) = text.split_at(indent);
    let (raw, behind) = text.split_at(indent + line_len(behind_blanks));
    let line = trimmed(raw);
    let (_, written) = line.split_at(indent);
    First {
        line,
        skipped: begins_note(written),
        rest: behind_feed(behind),
    }
}

/// A line that is not skipped, and the text behind it.
#[derive(Clone, Copy)]
struct Found<'a> {
    line: Line<'a>,
    rest: &'a [u8],
}

/// The first line that is not skipped, where the text begins with the line of this number.
fn next_line<'a>(text: &'a [u8], number: u32) -> Option<Found<'a>>
    requires { number + length text.now ≤ 2 ^ 26 + 1 }
    ensures lines { MatchOption result (lines_from number text.now ≡ []) (λ found.
        lines_from number text.now
        ≡ numbered_line found.line.number found.line.text.now
        ∷ lines_from (found.line.number + 1) found.rest.now) }
    ensures bound { MatchOption result (lines_from number text.now ≡ []) (λ found.
        found.line.number + 1 + length found.rest.now ≤ 2 ^ 26 + 1) }
{
    let mut left = text;
    let mut next = number;
    while !left.is_empty() {
        let first = first_line(left);
        if !first.skipped {
            let line = Line {
                number: next,
                text: first.line,
            };
            return Some(Found {
                line,
                rest: first.rest,
            });
        }
        left = first.rest;
        next += 1;
    }
    None
}

/// The lines of a file that are not skipped, in order. A line ends by LF or at the end of the
/// buffer, and one CR directly before that belongs to the line end. A line is skipped if it is
/// blank, or if its first byte behind blanks is `#`. The buffer has at most 2^26 bytes.
#[tactic(auto, using(crate::proofs::LineLaws::lines_few))]
pub fn lines<'a>(buffer: &'a [u8]) -> LineIter<'a>
    requires { length buffer.now ≤ 2 ^ 26 }
    ensures lines { result ≡ lines_of buffer.now }
    ensures few { length result ≤ length buffer.now }
{
    LineIter {
        rest: buffer,
        number: 1,
    }
}

impl<'a> Iterator for LineIter<'a> {
    ghost use Rattle.std.specs.Iterator.{YieldsFirstBy, item_count};
    ghost use Rattle.file_cut.specs.Lines.{numbered_line};

    type Item = Line<'a>;

    ghost next_gives = { YieldsFirstBy
        (λ line. numbered_line line.number line.text.now) (λ left. left) };

    ghost remaining = { item_count (λ left. left) };

    fn next(&mut self) -> Option<Line<'a>> {
        match next_line(self.rest, self.number) {
            None => {
                self.rest = &[];
                None
            }
            Some(found) => {
                self.rest = found.rest;
                self.number = found.line.number + 1;
                Some(found.line)
            }
        }
    }
}
