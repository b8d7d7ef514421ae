//! Terms read from text.
ghost use Rattle.std.specs.Prelude.{◌≡◌, None, Some, IfOk};
ghost use Rattle.functor_terms.specs.Terms.{Nodes};
ghost use Rattle.functor_terms.specs.Grammar.{SpellsTerm};
ghost use Rattle.functor_terms.specs.Reading.{part_at};

use crate::ahead::Ahead;
use crate::chain::chain;
use crate::fault::TermFault;
use crate::link::Link;
use crate::part::{DEPTH_LIMIT, TermPart};
use crate::term::Term;
use std::alloc::Global;

/// How many parentheses may be open at any place.
const OPEN_LIMIT: u32 = 32;

/// The part that all the tokens spell.
fn whole<'a>(alloc: Global, ahead: Ahead<'a>) -> Result<TermPart<'a>, TermFault>
    ensures part { IfOk result (λ part. part_at ahead.entry ≡ Some part) }
    ensures grammar { result ≡ Err TermFault.Grammar → part_at ahead.entry ≡ None }
{
    let (part, behind) = chain(alloc, ahead, Link::Sum, OPEN_LIMIT, DEPTH_LIMIT)?;
    match behind.first() {
        None => Ok(part),
        Some(_) => Err(TermFault::Grammar),
    }
}

/// The term that a functor line spells. Grammar comes exactly where the text spells none.
pub fn read_term<'a>(alloc: Global, text: &'a [u8]) -> Result<Term<'a>, TermFault>
    ensures term { IfOk result (SpellsTerm text.now) }
    ensures grammar { result ≡ Err TermFault.Grammar → (t : Nodes) → ¬ SpellsTerm text.now t }
{
    let part = whole(alloc, Ahead::of(text))?;
    Ok(part.into_term(alloc)?)
}
