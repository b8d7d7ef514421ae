//! The text of an explanation.
ghost use Rattle.std.specs.Prelude.{◌≡◌, ◌++◌, ◌∷◌, length, IfOk, OnOk};
ghost use Rattle.std.specs.List.{All};
ghost use Rattle.formula_text.specs.Texts.{line_text, text_of_answers};
ghost use Rattle.answer_writer.specs.Lines.{name_of, IsPairOf, pair_line, pair_lines};

use crate::words::{push_formula, push_state};
use formula_text::dag_text;
use formulas::Dag;
use std::alloc::{AllocError, Global};
use typing::Names;

/// The text of an explanation: the formulas, and a line for each pair of states. The verdict of a
/// pair is None where its states are equivalent, and else a formula that holds at the first alone.
/// The error is want of memory.
pub fn explanation_text(
    alloc: Global,
    names: &Names,
    dag: &Dag,
    pairs: &[(u32, u32)],
    verdicts: &[Option<u32>],
) -> Result<Vec<u8>, AllocError>
    requires named { All (IsPairOf names.now) pairs.now }
    requires one_each { length verdicts.now ≡ length pairs.now }
    ensures line_for_each { IfOk result (λ text. text.items
        ≡ text_of_answers dag.now (pair_lines names.now pairs.now verdicts.now)) }
{
    let mut text = dag_text(alloc, dag)?;
    for k in 0..pairs.len() {
        push_pair(&mut text, names, pairs[k], verdicts[k])?;
    }
    Ok(text)
}

/// Puts the line of a pair last.
fn push_pair(
    text: &mut Vec<u8>,
    names: &Names,
    pair: (u32, u32),
    verdict: Option<u32>,
) -> Result<(), AllocError>
    requires { IsPairOf names.now pair }
    ensures line_is_last { OnOk result (text.new.items
        ≡ text.old.items ++ line_text (pair_line names.now pair verdict)) }
{
    match verdict {
        None => {
            text.extend_from_slice(b"equivalent ")?;
            push_states(text, names, pair)?;
            text.push(b'\n')?;
            Ok(())
        }
        Some(formula) => {
            text.extend_from_slice(b"separates ")?;
            push_states(text, names, pair)?;
            text.push(b' ')?;
            push_formula(text, formula)?;
            text.push(b'\n')?;
            Ok(())
        }
    }
}

/// Puts the names of both states last, with a space between them.
fn push_states(text: &mut Vec<u8>, names: &Names, pair: (u32, u32)) -> Result<(), AllocError>
    requires { IsPairOf names.now pair }
    ensures names_are_last { OnOk result (text.new.items
        ≡ text.old.items ++ name_of names.now pair.0 ++ 32 ∷ name_of names.now pair.1) }
{
    push_state(text, names, pair.0)?;
    text.push(b' ')?;
    push_state(text, names, pair.1)
}
