//! The formulas that are wanted or cited, and no others.

ghost use Rattle.std.specs.Prelude.{◌≡◌, ◌<◌, ◌≤◌, ◌+◌, ◌⊎◌, ◌↔◌, ℕ, Bool, true, List, length, map, All, slice_index, slice_get, Some, IfOk, OnOk};
ghost use Rattle.formulas.specs.declared.formula.Formula.{Formula};
ghost use Rattle.formulas.specs.Formulas.{CitesBelow, IsDag};
ghost use Rattle.formula_builder.specs.Cited.{Cites, renumbered, IsOnlyCited};
ghost use Rattle.formula_builder.specs.Keeping.{IsMarked, AreReasoned, AreClosed, AreNeeded, AreKept};

use formulas::{Dag, Formula};
use std::alloc::{AllocError, Global};

/// Marks a number.
fn mark(marks: &mut Vec<bool>, k: u32)
    requires { k < length marks.old.items }
    ensures as_many { length marks.new.items ≡ length marks.old.items }
    ensures marked { (j : ℕ) →
        IsMarked marks.new.items j ↔ (IsMarked marks.old.items j ⊎ (j ≡ k)) }
{
    marks[k as usize] = true;
}

/// Marks the numbers that a formula cites.
fn mark_cited(marks: &mut Vec<bool>, f: &Formula)
    requires { CitesBelow (length marks.old.items) f.now }
    ensures as_many { length marks.new.items ≡ length marks.old.items }
    ensures marked { (j : ℕ) →
        IsMarked marks.new.items j ↔ (IsMarked marks.old.items j ⊎ Cites f.now j) }
{
    match f {
        Formula::True => {}
        Formula::Not(i) => mark(marks, *i),
        Formula::And(i, j) => {
            mark(marks, *i);
            mark(marks, *j);
        }
        Formula::At {
            splitter,
            coarse,
            ..
        } => {
            mark(marks, *splitter);
            mark(marks, *coarse);
        }
    }
}

/// Marks what the formula with a number cites, where it has a mark itself.
fn mark_through(marks: &mut Vec<bool>, dag: &Dag, k: u32)
    requires there { k < length dag.now }
    requires one_each { length marks.old.items ≡ length dag.now }
    ensures as_many { length marks.new.items ≡ length marks.old.items }
    ensures kept { (j : ℕ) → IsMarked marks.old.items j → IsMarked marks.new.items j }
    ensures closed { AreClosed dag.now marks.old.items (k + 1) →
        AreClosed dag.now marks.new.items k }
    ensures reasoned { (wanted : List ℕ) → AreReasoned dag.now wanted marks.old.items →
        AreReasoned dag.now wanted marks.new.items }
{
    // The formulas stand in their order.
    dag.is_dag();
    if marks[k as usize] {
        mark_cited(marks, dag.formula(k));
    }
}

/// Marks of the wanted numbers.
fn wanted_marks(alloc: Global, n: u32, wanted: &[u32]) -> Result<Vec<bool>, AllocError>
    requires { All (λ k. k < n) wanted.now }
    ensures one_each { IfOk result (λ marks. length marks.items ≡ n) }
    ensures all { IfOk result (λ marks. All (λ k. IsMarked marks.items k) wanted.now) }
    ensures reasoned { IfOk result (λ marks.
        (dag : List Formula) → AreReasoned dag wanted.now marks.items) }
{
    let mut marks = vec![in alloc; false; n as usize]?;
    for k in wanted {
        mark(&mut marks, *k);
    }
    Ok(marks)
}

/// Marks of all that is wanted or cited.
fn needed(alloc: Global, dag: &Dag, wanted: &[u32]) -> Result<Vec<bool>, AllocError>
    requires { All (λ k. k < length dag.now) wanted.now }
    ensures { IfOk result (λ marks. AreNeeded dag.now wanted.now marks.items) }
{
    let n = dag.len();
    let mut marks = wanted_marks(alloc, n, wanted)?;
    for below in 0..n {
        mark_through(&mut marks, dag, n - 1 - below);
    }
    Ok(marks)
}

/// A copy of a formula that cites the new numbers of those that it cites.
fn renumber(alloc: Global, f: &Formula, numbers: &[u32]) -> Result<Formula, AllocError>
    requires { CitesBelow (length numbers.now) f.now }
    ensures { IfOk result (λ g. g ≡ renumbered (slice_index numbers.now) f.now) }
{
    match f {
        Formula::True => Ok(Formula::True),
        Formula::Not(i) => Ok(Formula::Not(numbers[*i as usize])),
        Formula::And(i, j) => Ok(Formula::And(numbers[*i as usize], numbers[*j as usize])),
        Formula::At {
            node,
            value,
            splitter,
            coarse,
        } => Ok(Formula::At {
            node: *node,
            value: value.copied(alloc)?,
            splitter: numbers[*splitter as usize],
            coarse: numbers[*coarse as usize],
        }),
    }
}

/// Keeps the formula with the next number, where it has a mark.
fn keep(
    alloc: Global,
    dag: &Dag,
    marks: &[bool],
    k: u32,
    small: &mut Dag,
    numbers: &mut Vec<u32>,
) -> Result<(), AllocError>
    requires next { k < length dag.now }
    requires one_each { length marks.now ≡ length dag.now }
    requires closed { AreClosed dag.now marks.now 0 }
    requires kept { AreKept dag.now marks.now small.old numbers.old.items k }
    ensures kept { OnOk result
        (AreKept dag.now marks.now small.new numbers.new.items (k + 1)) }
{
    // The formulas stand in their order.
    dag.is_dag();
    let formula = renumber(alloc, dag.formula(k), numbers.as_slice())?;
    numbers.push(small.len())?;
    if marks[k as usize] {
        small.push(formula)?;
    }
    Ok(())
}

/// The marked formulas in order, renumbered, and the new numbers.
fn kept(alloc: Global, dag: &Dag, marks: &[bool]) -> Result<(Dag, Vec<u32>), AllocError>
    requires one_each { length marks.now ≡ length dag.now }
    requires closed { AreClosed dag.now marks.now 0 }
    ensures { IfOk result (λ r. AreKept dag.now marks.now r.0 r.1.items (length dag.now)) }
{
    let mut small = Dag::new(alloc);
    let mut numbers = Vec::with_capacity(alloc, dag.len() as usize)?;
    for k in 0..dag.len() {
        keep(alloc, dag, marks, k, &mut small, &mut numbers)?;
    }
    Ok((small, numbers))
}

/// The new number of each wanted formula.
fn new_numbers(alloc: Global, numbers: &[u32], wanted: &[u32]) -> Result<Vec<u32>, AllocError>
    requires { All (λ k. k < length numbers.now) wanted.now }
    ensures { IfOk result (λ new. new.items ≡ map (slice_index numbers.now) wanted.now) }
{
    let mut new = Vec::with_capacity(alloc, wanted.len())?;
    for k in wanted {
        new.push(numbers[*k as usize])?;
    }
    Ok(new)
}

/// The formulas of a list that are wanted, or cited on the way from wanted ones, in their order and
/// numbered anew; and the new number of each wanted one. The error is want of memory.
///
/// It takes one step for each formula and each wanted number.
pub fn only_cited(alloc: Global, dag: &Dag, wanted: &[u32]) -> Result<(Dag, Vec<u32>), AllocError>
    requires { All (λ k. k < length dag.now) wanted.now }
    ensures { IfOk result (λ r. IsOnlyCited dag.now wanted.now r.0 r.1.items) }
{
    // The formulas stand in their order.
    dag.is_dag();
    let marks = needed(alloc, dag, wanted)?;
    let (small, numbers) = kept(alloc, dag, marks.as_slice())?;
    let new = new_numbers(alloc, numbers.as_slice(), wanted)?;
    Ok((small, new))
}
