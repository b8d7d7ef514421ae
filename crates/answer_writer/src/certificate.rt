//! The text of a certificate.
ghost use Rattle.std.specs.Prelude.{◌≡◌, ◌++◌, map, length, IfOk, OnOk};
ghost use Rattle.std.specs.List.{All};
ghost use Rattle.formula_text.specs.Texts.{line_text, text_of_answers};
ghost use Rattle.answer_writer.specs.Lines.{name_of, names_behind, AreStatesOf, block_line, block_lines};

use crate::words::{push_formula, push_state};
use formula_text::dag_text;
use formulas::Dag;
use std::alloc::{AllocError, Global};
use typing::Names;

/// The text of a certificate: the formulas, and for each block its formula and its states, in the
/// order in which they are given. The error is want of memory.
pub fn certificate_text(
    alloc: Global,
    names: &Names,
    dag: &Dag,
    formulas: &[u32],
    blocks: &[Vec<u32>],
) -> Result<Vec<u8>, AllocError>
    requires named { All (λ b. AreStatesOf names.now b.items) blocks.now }
    requires one_each { length formulas.now ≡ length blocks.now }
    ensures line_for_each { IfOk result (λ text. text.items ≡ text_of_answers dag.now
        (block_lines names.now formulas.now (map (λ b. b.items) blocks.now))) }
{
    let mut text = dag_text(alloc, dag)?;
    for k in 0..blocks.len() {
        push_block(&mut text, names, formulas[k], blocks[k].as_slice())?;
    }
    Ok(text)
}

/// Puts the line of a block last.
fn push_block(
    text: &mut Vec<u8>,
    names: &Names,
    formula: u32,
    states: &[u32],
) -> Result<(), AllocError>
    requires { AreStatesOf names.now states.now }
    ensures line_is_last { OnOk result (text.new.items
        ≡ text.old.items ++ line_text (block_line names.now formula states.now)) }
{
    text.extend_from_slice(b"block ")?;
    push_formula(text, formula)?;
    push_names(text, names, states)?;
    text.push(b'\n')?;
    Ok(())
}

/// Puts a space and the name last for each of the states, in order.
fn push_names(text: &mut Vec<u8>, names: &Names, states: &[u32]) -> Result<(), AllocError>
    requires { AreStatesOf names.now states.now }
    ensures names_are_last { OnOk result (text.new.items
        ≡ text.old.items ++ names_behind (map (name_of names.now) states.now)) }
{
    for state in states {
        text.push(b' ')?;
        push_state(text, names, *state)?;
    }
    Ok(())
}
