//! Formulas in the parts of a line.
ghost use Rattle.std.specs.Prelude.{◌≡◌, ◌<◌, ◌&&◌, ◌∷◌, [], map, length, option_map, option_and_then, MatchOption, IfSome, IfOk};
ghost use Rattle.formulas.specs.Formulas.{CitesBelow};
ghost use Rattle.formulas.specs.declared.formula.Formula.TheVariants.{Not, And, At};
ghost use Rattle.formula_text.specs.Values.{both};
ghost use Rattle.formula_text.specs.Answers.{cited as is_cited, modality_of, body_of as is_body};

use crate::numbers::number_below;
use crate::values::value_in;
use formulas::Formula;
use std::alloc::{AllocError, Global};

/// The number of the formula, one of the first k, that a part names.
pub fn cited(k: u32, part: &[u8]) -> Option<u32>
    ensures number { result ≡ is_cited k part.now }
    ensures below { IfSome result (λ i. i < k) }
{
    match part {
        [b'f', digits @ ..] => Some(number_below(digits, k as u128)? as u32),
        _ => None,
    }
}

/// The formula that the parts behind `=` define, where the first k can be cited.
pub fn body_of(alloc: Global, k: u32, body: &[&[u8]]) -> Result<Option<Formula>, AllocError>
    ensures body { IfOk result (λ f. f ≡ is_body k (map (λ part. part.now) body.now)) }
    ensures cites { IfOk result (λ f. IfSome f (CitesBelow k)) }
{
    match body {
        [] => Ok(None),
        [word] => Ok(true_of(word)),
        [word, i] => Ok(not_of(k, word, i)),
        [word, i, j] => Ok(and_of(k, word, i, j)),
        [_, _, _, _] => Ok(None),
        [word, node, value, splitter, coarse] => {
            if *word == b"at".as_slice() {
                at_of(alloc, k, node, value, splitter, coarse)
            } else {
                Ok(None)
            }
        }
        [_, _, _, _, _, _, ..] => Ok(None),
    }
}

/// `true`.
fn true_of(word: &[u8]) -> Option<Formula>
    ensures body { result ≡ is_body 0 (word.now ∷ []) }
    ensures cites { IfSome result (CitesBelow 0) }
{
    if word == b"true".as_slice() {
        Some(Formula::True)
    } else {
        None
    }
}

/// `not` and a formula.
fn not_of(k: u32, word: &[u8], i: &[u8]) -> Option<Formula>
    ensures body { result ≡ is_body k (word.now ∷ i.now ∷ []) }
    ensures cites { IfSome result (CitesBelow k) }
{
    if word == b"not".as_slice() {
        Some(Formula::Not(cited(k, i)?))
    } else {
        None
    }
}

/// `and` and two formulas.
fn and_of(k: u32, word: &[u8], i: &[u8], j: &[u8]) -> Option<Formula>
    ensures body { result ≡ is_body k (word.now ∷ i.now ∷ j.now ∷ []) }
    ensures cites { IfSome result (CitesBelow k) }
{
    if word == b"and".as_slice() {
        Some(Formula::And(cited(k, i)?, cited(k, j)?))
    } else {
        None
    }
}

/// A modality at a node, which has a value by its cited formulas.
fn at_of(
    alloc: Global,
    k: u32,
    node: &[u8],
    value: &[u8],
    splitter: &[u8],
    coarse: &[u8],
) -> Result<Option<Formula>, AllocError>
    ensures body { IfOk result (λ f.
        f ≡ modality_of k node.now value.now splitter.now coarse.now) }
    ensures cites { IfOk result (λ f. IfSome f (CitesBelow k)) }
{
    let Some(node) = number_below(node, 256) else {
        return Ok(None);
    };
    let Some(value) = value_in(alloc, value)? else {
        return Ok(None);
    };
    let Some(splitter) = cited(k, splitter) else {
        return Ok(None);
    };
    let Some(coarse) = cited(k, coarse) else {
        return Ok(None);
    };
    Ok(Some(Formula::At {
        node: node as u32,
        value,
        splitter,
        coarse,
    }))
}
