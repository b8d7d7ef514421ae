//! The tokens of a structure line, each with its place.
//!
//! Shape: an iterator over what is left of the line. A token is the longest word that stands behind
//! the blanks at the front, or one byte that is of no word.
//! Seen as: the list of the tokens that are left (`tokens_from`).
ghost use Rattle.std.specs.Prelude.{List, ◌≡◌, ◌≤◌, ◌<◌, ◌+◌, ◌^◌, ℕ, [], ◌∷◌, length, MatchOption};
ghost use Rattle.file_cut.specs.Tokens.{tokens_from, tokens_of, token_len as front_len, IsFirstToken};

use crate::bytes::{blank_len, is_word_byte, word_len};
use std::marker::Model;

/// A token, as a slice of its line, and the place of its first byte there, counted from 0.
#[derive(Clone, Copy, Debug)]
pub struct Token<'a> {
    pub text: &'a [u8],
    pub at: u32,
}

/// What is left of a line: the bytes, and the place of the first of them.
#[derive(Drop)]
pub struct TokenIter<'a> {
    rest: &'a [u8],
    at: u32,
}

impl<'a> Model for TokenIter<'a> {
    ghost use Rattle.std.specs.Prelude.{List, ◌+◌, ◌≤◌, ◌^◌, length};
    ghost use Rattle.std.specs.Coded.{coded_list};
    ghost use Rattle.file_cut.specs.Tokens.{Piece, piece_code, tokens_from};

    ghost Value = { List Piece };

    ghost coded = { coded_list piece_code };

    ghost view = { λ tokens. tokens_from tokens.at tokens.rest.now };

    ghost invariant = { λ tokens. tokens.at + length tokens.rest.now ≤ 2 ^ 26 };
}

/// The first token of a text, how many blanks stand before it, and the text behind it.
#[derive(Clone, Copy)]
pub struct First<'a> {
    pub skipped: usize,
    pub token: &'a [u8],
    pub rest: &'a [u8],
}

/// How many bytes the token at the front has.
fn token_len(text: &[u8]) -> usize
    ensures len { result ≡ front_len text.now }
    ensures within { result ≤ length text.now }
{
    match text {
        [] => 0,
        [first, others @ ..] => {
            if is_word_byte(*first) {
                word_len(others) + 1
            } else {
                1
            }
        }
    }
}

/// The first token of a text. None comes where blanks alone are left.
#[tactic(auto, using(crate::proofs::TokenLaws::first_laws, crate::proofs::TokenLaws::no_tokens))]
pub fn first_token<'a>(text: &'a [u8]) -> Option<First<'a>>
    ensures { MatchOption result ((at : ℕ) → tokens_from at text.now ≡ []) (λ first.
        IsFirstToken text.now first.skipped first.token.now first.rest.now) }
{
    let skipped = blank_len(text);
    let (_, after) = text.split_at(skipped);
    if after.is_empty() {
        return None;
    }
    let (token, rest) = after.split_at(token_len(after));
    Some(First {
        skipped,
        token,
        rest,
    })
}

/// The tokens of a structure line, in order: words that cannot be longer, and single bytes that are
/// neither blanks nor of words. A byte that begins no token is given as a token of one byte. The
/// line has at most 2^26 bytes.
#[tactic(auto, using(crate::proofs::TokenLaws::tokens_few))]
pub fn tokens<'a>(line: &'a [u8]) -> TokenIter<'a>
    requires { length line.now ≤ 2 ^ 26 }
    ensures tokens { result ≡ tokens_of line.now }
    ensures few { length result ≤ length line.now }
{
    TokenIter { rest: line, at: 0 }
}

impl<'a> Iterator for TokenIter<'a> {
    ghost use Rattle.std.specs.Iterator.{YieldsFirstBy, item_count};
    ghost use Rattle.file_cut.specs.Tokens.{piece};

    type Item = Token<'a>;

    ghost next_gives = { YieldsFirstBy (λ token. piece token.text.now token.at) (λ left. left) };

    ghost remaining = { item_count (λ left. left) };

    fn next(&mut self) -> Option<Token<'a>> {
        let first = first_token(self.rest)?;
        let at = self.at + first.skipped as u32;
        self.at = at + first.token.len() as u32;
        self.rest = first.rest;
        Some(Token {
            text: first.token,
            at,
        })
    }
}
