//! The canonical text of formulas.
ghost use Rattle.std.specs.Prelude.{◌≡◌, ◌<◌, ◌≤◌, ◌+◌, ◌^◌, [], ◌∷◌, ◌++◌, codes, length, IfOk, OnOk};
ghost use Rattle.std.specs.Fmt.{decimal};
ghost use Rattle.formula_text.specs.Answers.{formula_name as name_of};
ghost use Rattle.formula_text.specs.Texts.{text_of_dag, formula_line as line_of, body_parts, line_of_parts};
ghost use Rattle.formula_text.specs.Values.{trits_text, later_trits, fraction_text, sums_text};
ghost use Rattle.formula_text.specs.Values.{text_at, set_texts, value_text};

use formulas::{Dag, Formula};
use itoa::Buffer;
use modalities::{Sums, Three};
use std::alloc::{AllocError, Global};
use weights::{Ratio, ratio_text};

/// The lines that define the formulas of a list, in order. The error is want of memory.
pub fn dag_text(alloc: Global, dag: &Dag) -> Result<Vec<u8>, AllocError>
    ensures { IfOk result (λ text. text.items ≡ text_of_dag dag.now) }
{
    let mut text = Vec::new(alloc);
    for k in 0..dag.len() {
        push_formula(&mut text, k, dag.formula(k))?;
    }
    Ok(text)
}

/// Puts the line of formula k last.
fn push_formula(text: &mut Vec<u8>, k: u32, formula: &Formula) -> Result<(), AllocError>
    ensures line_is_last { OnOk result (text.new.items ≡ text.old.items ++ line_of k formula.now) }
{
    push_name(text, k)?;
    text.extend_from_slice(b" = ")?;
    push_body(text, formula)
}

/// Puts what stands behind `=` last, with the line feed.
fn push_body(text: &mut Vec<u8>, formula: &Formula) -> Result<(), AllocError>
    ensures body_is_last { OnOk result (text.new.items
        ≡ text.old.items ++ line_of_parts (body_parts formula.now)) }
{
    match formula {
        Formula::True => {
            text.extend_from_slice(b"true\n")?;
            Ok(())
        }
        Formula::Not(i) => {
            text.extend_from_slice(b"not ")?;
            push_last_name(text, *i)
        }
        Formula::And(i, j) => {
            text.extend_from_slice(b"and ")?;
            push_last_names(text, *i, *j)
        }
        Formula::At {
            node,
            value,
            splitter,
            coarse,
        } => {
            push_layer(text, *node, value)?;
            push_last_names(text, *splitter, *coarse)
        }
    }
}

/// Puts the node and the value of a modality last, with a space behind them.
fn push_layer(text: &mut Vec<u8>, node: u32, value: &Three) -> Result<(), AllocError>
    ensures layer_is_last { OnOk result (text.new.items
        ≡ text.old.items ++ codes "at " ++ decimal node ++ 32 ∷ value_text value.now ++ 32 ∷ []) }
{
    text.extend_from_slice(b"at ")?;
    push_number(text, node as u64)?;
    text.push(b' ')?;
    push_value(text, value)?;
    text.push(b' ')?;
    Ok(())
}

/// Puts the names of two formulas last, with a space between them, and a line feed.
fn push_last_names(text: &mut Vec<u8>, i: u32, j: u32) -> Result<(), AllocError>
    ensures names_are_last { OnOk result (text.new.items
        ≡ text.old.items ++ name_of i ++ 32 ∷ name_of j ++ 10 ∷ []) }
{
    push_name(text, i)?;
    text.push(b' ')?;
    push_last_name(text, j)
}

/// Puts the name of a formula last, and a line feed.
fn push_last_name(text: &mut Vec<u8>, k: u32) -> Result<(), AllocError>
    ensures name_is_last { OnOk result (text.new.items ≡ text.old.items ++ name_of k ++ 10 ∷ []) }
{
    push_name(text, k)?;
    text.push(b'\n')?;
    Ok(())
}

/// Puts the name of a formula last.
fn push_name(text: &mut Vec<u8>, k: u32) -> Result<(), AllocError>
    ensures name_is_last { OnOk result (text.new.items ≡ text.old.items ++ name_of k) }
{
    text.push(b'f')?;
    push_number(text, k as u64)
}

/// Puts a number last.
fn push_number(text: &mut Vec<u8>, n: u64) -> Result<(), AllocError>
    ensures number_is_last { OnOk result (text.new.items ≡ text.old.items ++ decimal n) }
{
    let mut digits = Buffer::new();
    text.extend_from_slice(digits.format(n).as_bytes())?;
    Ok(())
}

/// Puts the text of a value last.
fn push_value(text: &mut Vec<u8>, value: &Three) -> Result<(), AllocError>
    ensures value_is_last { OnOk result (text.new.items ≡ text.old.items ++ value_text value.now) }
{
    match value {
        Three::Label(n) => {
            text.push(b'=')?;
            push_number(text, *n)
        }
        Three::Trit(t) => push_number(text, *t as u64),
        Three::Trits(trits) => {
            text.push(b'(')?;
            push_trits(text, trits.as_slice())
        }
        Three::Tagged(i, t) => {
            push_number(text, *i as u64)?;
            text.push(b':')?;
            push_number(text, *t as u64)
        }
        Three::Members(bits) => {
            text.extend_from_slice(set_text(*bits))?;
            Ok(())
        }
        Three::Triple(sums) => {
            text.push(b'[')?;
            push_sums(text, sums.get())
        }
    }
}

/// Puts trits last, with a comma between them, and a closing parenthesis.
fn push_trits(text: &mut Vec<u8>, trits: &[u8]) -> Result<(), AllocError>
    ensures trits_are_last { OnOk result (text.new.items ≡ text.old.items ++ trits_text trits.now) }
{
    match trits {
        [] => {
            text.push(b')')?;
            Ok(())
        }
        [first, rest @ ..] => {
            push_number(text, *first as u64)?;
            push_later_trits(text, rest)
        }
    }
}

/// Puts a comma and a trit last for each trit, and a closing parenthesis.
fn push_later_trits(text: &mut Vec<u8>, trits: &[u8]) -> Result<(), AllocError>
    ensures trits_are_last { OnOk result (text.new.items
        ≡ text.old.items ++ later_trits trits.now) }
{
    for trit in trits {
        text.push(b',')?;
        push_number(text, *trit as u64)?;
    }
    text.push(b')')?;
    Ok(())
}

/// The text of the set with this number.
pub fn set_text(bits: u8) -> &'static [u8]
    ensures text { result.now ≡ text_at set_texts bits }
{
    match bits {
        0 => b"{}",
        1 => b"{0}",
        2 => b"{1}",
        3 => b"{0,1}",
        4 => b"{2}",
        5 => b"{0,2}",
        6 => b"{1,2}",
        7 => b"{0,1,2}",
        _ => b"",
    }
}

/// Puts three fractions last, with commas between them, and a closing bracket.
fn push_sums(text: &mut Vec<u8>, sums: &Sums) -> Result<(), AllocError>
    ensures sums_are_last { OnOk result (text.new.items ≡ text.old.items ++ sums_text sums.now) }
{
    push_fraction(text, sums.at_zero)?;
    text.push(b',')?;
    push_fraction(text, sums.at_one)?;
    text.push(b',')?;
    push_fraction(text, sums.at_two)?;
    text.push(b']')?;
    Ok(())
}

/// Puts a fraction last.
fn push_fraction(text: &mut Vec<u8>, r: Ratio) -> Result<(), AllocError>
    ensures fraction_is_last { OnOk result (text.new.items ≡ text.old.items ++ fraction_text r) }
{
    let mut out = [0; 64];
    let end = ratio_text(r, &mut out);
    text.extend_from_slice(&out[..end])?;
    Ok(())
}
