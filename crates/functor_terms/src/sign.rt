//! The tokens of functor lines, cut from the front of a text.
//!
//! Shape: a token is a slice of the text, so nothing is copied. Which bytes may follow depends on
//! whether braces are open, so that is told with each text.
ghost use Rattle.std.specs.Prelude.{◌≡◌, ◌≤◌, ◌==◌, ◌&&◌, ◌∷◌, [], false, length, MatchOption};
ghost use Rattle.std.specs.Char.{is_ascii_digit};
ghost use Rattle.std.specs.List.{prefix_len};
ghost use Rattle.file_cut.specs.Bytes.{is_blank};
ghost use Rattle.functor_terms.specs.Signs.{outside, inside, signs_at, place_in, begins, cross_first, cross_second, sign_of as the_sign_of};
ghost use Rattle.functor_terms.specs.Ahead.{IsToken};

use file_cut::{Word, blank_len, is_word_byte, word_len};

/// A token of a functor line.
#[derive(Debug, Drop)]
pub enum Sign<'a> {
    X,
    P,
    B,
    D,
    N,
    Z,
    Q,
    Plus,
    Times,
    Caret,
    Open,
    Close,
    OpenBrace,
    CloseBrace,
    Comma,
    /// Digits outside braces.
    Digits(Word<'a>),
    /// A word inside braces.
    Word(Word<'a>),
    /// A byte that begins no token.
    Stray,
}

/// A token, the text behind it, and whether that stands in braces.
pub struct First<'a> {
    pub sign: Sign<'a>,
    pub rest: &'a [u8],
    pub braces: bool,
}

/// How many digits stand at the front.
fn digit_len(text: &[u8]) -> usize
    ensures len { result ≡ prefix_len is_ascii_digit text.now }
    ensures within { result ≤ length text.now }
{
    text.iter().take_while(|byte| byte.is_ascii_digit()).count()
}

/// The text behind the sign `×`, of which the first byte is given.
fn behind_cross<'a>(first: u8, others: &'a [u8]) -> Option<&'a [u8]>
    ensures { MatchOption result
        (((first == cross_first) && begins (λ c. c == cross_second) others.now) ≡ false)
        (λ rest. (first ≡ cross_first) × (others.now ≡ cross_second ∷ rest.now)) }
{
    let Some((second, rest)) = others.split_first() else {
        return None;
    };
    if first == 0xc3 && *second == 0x97 {
        Some(rest)
    } else {
        None
    }
}

/// What a byte outside braces is by itself.
fn sign_of<'a>(byte: u8) -> Sign<'a>
    ensures { result ≡ the_sign_of byte }
{
    match byte {
        b'X' => Sign::X,
        b'P' => Sign::P,
        b'B' => Sign::B,
        b'D' => Sign::D,
        b'N' => Sign::N,
        b'Z' => Sign::Z,
        b'Q' => Sign::Q,
        b'x' | b'*' => Sign::Times,
        b'+' => Sign::Plus,
        b'^' => Sign::Caret,
        b'(' => Sign::Open,
        b')' => Sign::Close,
        _ => Sign::Stray,
    }
}

/// The first token outside braces. The text is its first byte, which is no blank, and the others.
fn sign_outside<'a>(text: &'a [u8], first: u8, others: &'a [u8]) -> First<'a>
    requires front { text.now ≡ first ∷ others.now }
    requires no_blank { is_blank first ≡ false }
    ensures tokens { signs_at outside text.now
        ≡ result.sign ∷ signs_at (place_in result.braces) result.rest.now }
    ensures token { IsToken result.sign }
{
    if first.is_ascii_digit() {
        let (digits, rest) = text.split_at(digit_len(text));
        let sign = Sign::Digits(Word::new(digits));
        return First {
            sign,
            rest,
            braces: false,
        };
    }
    if let Some(rest) = behind_cross(first, others) {
        return First {
            sign: Sign::Times,
            rest,
            braces: false,
        };
    }
    if first == b'{' {
        return First {
            sign: Sign::OpenBrace,
            rest: others,
            braces: true,
        };
    }
    First {
        sign: sign_of(first),
        rest: others,
        braces: false,
    }
}

/// The first token inside braces. The text is its first byte, which is no blank, and the others.
fn sign_inside<'a>(text: &'a [u8], first: u8, others: &'a [u8]) -> First<'a>
    requires front { text.now ≡ first ∷ others.now }
    requires no_blank { is_blank first ≡ false }
    ensures tokens { signs_at inside text.now
        ≡ result.sign ∷ signs_at (place_in result.braces) result.rest.now }
    ensures token { IsToken result.sign }
{
    if is_word_byte(first) {
        let (word, rest) = text.split_at(word_len(text));
        let sign = Sign::Word(Word::new(word));
        return First {
            sign,
            rest,
            braces: true,
        };
    }
    if first == b',' {
        return First {
            sign: Sign::Comma,
            rest: others,
            braces: true,
        };
    }
    if first == b'}' {
        return First {
            sign: Sign::CloseBrace,
            rest: others,
            braces: false,
        };
    }
    First {
        sign: Sign::Stray,
        rest: others,
        braces: true,
    }
}

/// The first token of a text that stands in braces or does not. None comes where blanks alone are
/// left.
pub fn first_sign<'a>(text: &'a [u8], braces: bool) -> Option<First<'a>>
    ensures { MatchOption result (signs_at (place_in braces) text.now ≡ [])
        (λ first. (signs_at (place_in braces) text.now
        ≡ first.sign ∷ signs_at (place_in first.braces) first.rest.now) × IsToken first.sign) }
{
    let (_, text) = text.split_at(blank_len(text));
    let Some((first, others)) = text.split_first() else {
        return None;
    };
    if braces {
        Some(sign_inside(text, *first, others))
    } else {
        Some(sign_outside(text, *first, others))
    }
}
