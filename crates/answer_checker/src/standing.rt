//! The states of block lines, put into places.
ghost use Rattle.std.specs.Prelude.{◌≡◌, ◌<◌, ◌^◌, ◌++◌, ◌∷◌, [], ℕ, List, length, map, IfOk};
ghost use Rattle.answer_checker.specs.Blocks.{BlockLine as TheLine, line_with};
ghost use Rattle.answer_checker.specs.Verdicts.{number_of, lines_seen};
ghost use Rattle.answer_checker.specs.Steps.{ArePlaces};

use crate::places::{Place, put_again};
use formula_text::BlockLine;
use std::alloc::{AllocError, Global};
use typing::Names;

/// Puts the state of a name, which may be no state, into line k, behind k lines.
fn put_state(places: &mut [Place], names: &Names, k: u32, word: &[u8])
    requires one_each { length places.old ≡ length names.now }
    ensures one_each { length places.new ≡ length names.now }
    ensures put { (lines : List TheLine) (f : ℕ) (ss : List ℕ) → length lines ≡ k →
        ArePlaces (lines ++ line_with f ss ∷ []) places.old →
        ArePlaces (lines ++ line_with f (ss ++ number_of names.now word.now ∷ []) ∷ [])
        places.new }
{
    if let Some(i) = names.number(word) {
        places[i as usize] = put_again(k, places[i as usize]);
    }
}

/// Puts the states of these names, each of which may be no state, into line k, behind k lines.
fn put_states(places: &mut [Place], names: &Names, k: u32, words: &[&[u8]])
    requires one_each { length places.old ≡ length names.now }
    ensures one_each { length places.new ≡ length names.now }
    ensures put { (lines : List TheLine) (f : ℕ) → length lines ≡ k → ArePlaces lines places.old →
        ArePlaces (lines ++ line_with f (map (λ word. number_of names.now word.now) words.now) ∷ [])
        places.new }
{
    for word in words {
        put_state(places, names, k, word);
    }
}

/// Where each state stands in the block lines.
pub(crate) fn places_in(
    alloc: Global,
    names: &Names,
    blocks: &[BlockLine],
) -> Result<Vec<Place>, AllocError>
    requires few { length blocks.now < 2 ^ 32 }
    ensures one_each { IfOk result (λ places. length places.items ≡ length names.now) }
    ensures places { IfOk result (λ places.
        ArePlaces (lines_seen names.now blocks.now) places.items) }
{
    let mut places = vec![in alloc; Place::Nowhere; names.len() as usize]?;
    let mut k = 0;
    for block in blocks {
        put_states(places.as_mut_slice(), names, k, block.names.as_slice());
        k += 1;
    }
    Ok(places)
}
