//! One row: its lines cut, fitted, joined and scaled, in the order in which a file is read.
ghost use Rattle.std.specs.Prelude.{◌≤◌, ◌^◌, length, IfOk, IsTrue};
ghost use Rattle.fitting.specs.Scaling.{IsFitted, are_numerals};

use crate::fault::RowFault;
use crate::value_text::push_value;
use file_cut::{Tree, cut_line};
use fitting::{FitFault, Fitted, ScaleFault, fit, own_numbers, scale};
use functor_terms::{Term, read_term};
use std::alloc::Global;
use typing::Names;

/// More states than a row has.
const STATES: u32 = 1_000;

/// The most entries of a list that `scale` takes.
const ENTRIES: usize = 67_108_864;

/// The common denominator of a row and the values of its lines.
pub fn answer(alloc: Global, row: &[u8]) -> Result<String, RowFault> {
    let mut fields = row.split(|byte| *byte == b'|');
    let term = read_term(alloc, fields.next().unwrap_or(&[]))?;
    let mut names = Names::new(alloc);
    let mut trees = Vec::new(alloc);
    for line in fields.next().unwrap_or(&[]).split(|byte| *byte == b';') {
        let (head, tree) = cut_line(alloc, line)?;
        if names.len() < STATES {
            names.add(head)?;
        }
        trees.push(tree)?;
    }
    values_of(alloc, &term, &names, trees.as_slice())
}

/// What the tree of a line denotes, or its misfit.
fn fitted_line(
    alloc: Global,
    term: &Term,
    names: &Names,
    line: usize,
    tree: &Tree,
) -> Result<Fitted, RowFault>
    ensures fitted { IfOk result (IsFitted term.now (length names.now)) }
    ensures numerals { IfOk result (λ fitted. IsTrue (are_numerals fitted)) }
{
    match fit(alloc, term, tree, names) {
        Ok(fitted) => Ok(fitted),
        Err(FitFault::Misfit(kind)) => Err(RowFault::Misfit { line, kind }),
        Err(FitFault::NoMemory) => Err(RowFault::NoMemory),
    }
}

/// Each line is fitted before a bound is looked at, and all bounds before a sum.
fn values_of(
    alloc: Global,
    term: &Term,
    names: &Names,
    trees: &[Tree],
) -> Result<String, RowFault> {
    for (i, tree) in trees.iter().enumerate() {
        fitted_line(alloc, term, names, i + 1, tree)?;
    }
    let l = common_denominator(alloc, term, names, trees)?;
    let own = own_numbers(alloc, names.len())?;
    let mut text = format!(in alloc; "{l}")?;
    for (i, tree) in trees.iter().enumerate() {
        let fitted = fitted_line(alloc, term, names, i + 1, tree)?;
        if fitted.over_bound() || !fitted.lists_within(ENTRIES) {
            return Err(RowFault::Bound { line: i + 1 });
        }
        match scale(alloc, term, own.as_slice(), l, &fitted) {
            Ok(value) => {
                text.push_str("; ")?;
                push_value(alloc, &mut text, &value)?;
            }
            Err(ScaleFault::BadSum) => return Err(RowFault::Sum { line: i + 1 }),
            Err(ScaleFault::NoMemory) => return Err(RowFault::NoMemory),
        }
    }
    Ok(text)
}

/// The common denominator of all lines.
fn common_denominator(
    alloc: Global,
    term: &Term,
    names: &Names,
    trees: &[Tree],
) -> Result<u64, RowFault>
    ensures { IfOk result (λ l. l ≤ 2 ^ 40) }
{
    let mut l = 1;
    for (i, tree) in trees.iter().enumerate() {
        let fitted = fitted_line(alloc, term, names, i + 1, tree)?;
        if fitted.over_bound() {
            return Err(RowFault::Bound { line: i + 1 });
        }
        let Some(joined) = fitted.join_denominators(l) else {
            return Err(RowFault::Bound { line: i + 1 });
        };
        l = joined;
    }
    Ok(l)
}
