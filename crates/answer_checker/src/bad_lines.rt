//! Lines that are at odds with a term or with the names of states.
ghost use Rattle.std.specs.Prelude.{◌≡◌, ◌<◌, ◌^◌, length, map, Some, None};
ghost use Rattle.std.specs.List.{list_all};
ghost use Rattle.formula_text.specs.Reading.{block_seen};
ghost use Rattle.answer_checker.specs.BadLines.{lesser as the_lesser, is_state as is_name};
ghost use Rattle.answer_checker.specs.LineSteps.{least_of_formulas, least_of_blocks};

use formula_text::BlockLine;
use formulas::Dag;
use functor_terms::Term;
use satisfaction::fits_modality;
use typing::Names;

/// The lesser of two numbers that may not be there.
pub(crate) fn lesser(a: Option<u32>, b: Option<u32>) -> Option<u32>
    ensures { result ≡ the_lesser a b }
{
    match (a, b) {
        (None, b) => b,
        (Some(m), None) => Some(m),
        (Some(m), Some(n)) => Some(m.min(n)),
    }
}

/// The least line of a formula whose modality does not fit the term. Each formula has a line.
pub(crate) fn least_misfit(term: &Term, dag: &Dag, lines: &[u32]) -> Option<u32>
    requires one_each { length lines.now ≡ length dag.now }
    ensures { result ≡ least_of_formulas term.now dag.now lines.now }
{
    let mut least = None;
    for k in 0..dag.len() {
        if !fits_modality(term, dag.formula(k)) {
            least = lesser(least, Some(lines[k as usize]));
        }
    }
    least
}

/// Whether the word is the name of a state.
fn is_state(names: &Names, word: &[u8]) -> bool
    ensures { result ≡ is_name names.now word.now }
{
    names.number(word).is_some()
}

/// Whether each word is the name of a state.
fn are_states(names: &Names, words: &[&[u8]]) -> bool
    ensures { result ≡ list_all (is_name names.now) (map (λ word. word.now) words.now) }
{
    for word in words {
        if !is_state(names, word) {
            return false;
        }
    }
    true
}

/// The least line of a block with a name of no state.
pub(crate) fn least_stranger(names: &Names, blocks: &[BlockLine]) -> Option<u32>
    ensures { result ≡ least_of_blocks names.now (map block_seen blocks.now) }
{
    let mut least = None;
    for block in blocks {
        if !are_states(names, block.names.as_slice()) {
            least = lesser(least, Some(block.line));
        }
    }
    least
}
