//! The tokens that are left of a functor line.
//!
//! Shape: the first token is cut already, and a reader moves the tokens on and cannot copy them, so
//! each is cut once; where weights may stand, up to two more are looked at first.
//! Seen as: the list of the tokens.
ghost use Rattle.std.specs.Prelude.{◌≡◌, ◌∷◌, [], List, Some, None, Option, MatchOption, MatchResult};
ghost use Rattle.functor_terms.specs.Signs.{signs, signs_at, place_in};
ghost use Rattle.functor_terms.specs.Ahead.{IsToken, others, passes as the_passes};
ghost use Rattle.functor_terms.specs.Reading.{behind_sign, behind_power};

use crate::sign::{First, Sign, first_sign};
use std::marker::Model;

/// A sign that a reader may look for.
#[derive(Clone, Copy, Debug)]
pub enum Wanted {
    Plus,
    Times,
    Caret,
    Open,
    Close,
    Comma,
    BraceEnd,
}

/// Whether the token is the wanted one.
fn passes(wanted: Wanted, sign: &Sign) -> bool
    ensures { result ≡ the_passes wanted sign.now }
{
    match wanted {
        Wanted::Plus => matches!(sign, Sign::Plus),
        Wanted::Times => matches!(sign, Sign::Times),
        Wanted::Caret => matches!(sign, Sign::Caret),
        Wanted::Open => matches!(sign, Sign::Open),
        Wanted::Close => matches!(sign, Sign::Close),
        Wanted::Comma => matches!(sign, Sign::Comma),
        Wanted::BraceEnd => matches!(sign, Sign::CloseBrace),
    }
}

/// The tokens that are left: the first, the text behind it, and whether that stands in braces.
#[derive(Drop)]
pub struct Ahead<'a> {
    first: Option<Sign<'a>>,
    rest: &'a [u8],
    braces: bool,
}

impl<'a> Model for Ahead<'a> {
    ghost use Rattle.std.specs.Prelude.{List};
    ghost use Rattle.functor_terms.specs.declared.sign.Sign.{Sign};
    ghost use Rattle.functor_terms.specs.Signs.{signs_at, place_in};
    ghost use Rattle.functor_terms.specs.Ahead.{IsFirst, left_behind};

    ghost Value = { List Sign };

    ghost view = { λ a. left_behind a.first (signs_at (place_in a.braces) a.rest.now) };

    ghost invariant = { λ a. IsFirst a.first };
}

impl<'a> Ahead<'a> {
    /// The tokens of a text, of which the first is cut here.
    fn cut(text: &'a [u8], braces: bool) -> Ahead<'a>
        ensures { result ≡ signs_at (place_in braces) text.now }
    {
        match first_sign(text, braces) {
            None => Ahead {
                first: None,
                rest: &[],
                braces: false,
            },
            Some(First { sign, rest, braces }) => Ahead {
                first: Some(sign),
                rest,
                braces,
            },
        }
    }

    /// The tokens of a functor line.
    pub fn of(line: &'a [u8]) -> Ahead<'a>
        ensures { result ≡ signs line.now }
    {
        Ahead::cut(line, false)
    }

    /// The first token.
    pub fn first(&self) -> Option<&Sign<'a>>
        ensures { MatchOption result (self.now ≡ [])
            (λ sign. (self.now ≡ sign.now ∷ others self.now) × IsToken sign.now) }
    {
        match &self.first {
            Some(sign) => Some(sign),
            None => None,
        }
    }

    /// The tokens behind the first.
    pub fn others(self) -> Ahead<'a>
        ensures { result ≡ others self.entry }
    {
        let Ahead {
            first,
            rest,
            braces,
        } = self;
        match first {
            Some(_) => Ahead::cut(rest, braces),
            None => Ahead {
                first: None,
                rest,
                braces,
            },
        }
    }

    /// The tokens behind the wanted one, or else the same tokens.
    pub fn behind(self, wanted: Wanted) -> Result<Ahead<'a>, Ahead<'a>>
        ensures { MatchResult result
            (λ rest. behind_sign (the_passes wanted) self.entry ≡ Some rest)
            (λ same. (behind_sign (the_passes wanted) self.entry ≡ None) × (same ≡ self.entry)) }
    {
        match self.first() {
            Some(sign) if passes(wanted, sign) => Ok(self.others()),
            _ => Err(self),
        }
    }

    /// The tokens behind `^(`, where these stand behind the first token.
    pub fn behind_power(&self) -> Option<Ahead<'a>>
        ensures { result ≡ behind_power (others self.now) }
    {
        let rest = match &self.first {
            Some(_) => Ahead::cut(self.rest, self.braces),
            None => return None,
        };
        let Ok(rest) = rest.behind(Wanted::Caret) else {
            return None;
        };
        match rest.behind(Wanted::Open) {
            Ok(rest) => Some(rest),
            Err(_) => None,
        }
    }
}
