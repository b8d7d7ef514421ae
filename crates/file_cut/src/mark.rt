//! What tokens are in the grammar, and the tokens that are left of a text.
ghost use Rattle.std.specs.Prelude.{◌≡◌, ◌<◌, [], ◌∷◌, length};
ghost use Rattle.file_cut.specs.Tokens.{mark_of as the_mark_of, sign_of as the_sign_of, marks};
ghost use Rattle.file_cut.specs.Reading.{left_of};

use crate::bytes::is_word_byte;
use crate::token::first_token;
use crate::word::Word;

/// What a token is in the grammar of structure lines.
#[derive(Debug, Drop)]
pub enum Mark<'a> {
    /// A word other than `inj`.
    Word(Word<'a>),
    Inj,
    Open,
    Close,
    OpenBrace,
    CloseBrace,
    Comma,
    Colon,
    /// A byte that begins no token.
    Stray,
}

fn mark_of<'a>(token: &'a [u8]) -> Mark<'a>
    ensures { result ≡ the_mark_of token.now }
{
    match token {
        [] => Mark::Stray,
        [first, ..] => {
            if !is_word_byte(*first) {
                sign_of(*first)
            } else if token == b"inj".as_slice() {
                Mark::Inj
            } else {
                Mark::Word(Word::new(token))
            }
        }
    }
}

/// What a byte of no word is in the grammar.
fn sign_of<'a>(byte: u8) -> Mark<'a>
    ensures { result ≡ the_sign_of byte }
{
    match byte {
        b'(' => Mark::Open,
        b')' => Mark::Close,
        b'{' => Mark::OpenBrace,
        b'}' => Mark::CloseBrace,
        b',' => Mark::Comma,
        b':' => Mark::Colon,
        _ => Mark::Stray,
    }
}

/// What is left of a text: its first token, which is cut already, and the text behind that. A
/// reader moves it on and cannot copy it, so each token is cut once.
#[derive(Debug, Drop)]
pub struct Ahead<'a> {
    pub mark: Option<Mark<'a>>,
    pub rest: &'a [u8],
}

/// The tokens of a text, of which the first is cut here.
pub fn ahead_of<'a>(text: &'a [u8]) -> Ahead<'a>
    ensures { left_of result ≡ marks text.now }
{
    match first_token(text) {
        None => Ahead {
            mark: None,
            rest: &[],
        },
        Some(first) => Ahead {
            mark: Some(mark_of(first.token)),
            rest: first.rest,
        },
    }
}
