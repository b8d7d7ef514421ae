//! The truths of all formulas at all states.

ghost use Rattle.std.specs.Prelude.{◌≡◌, ◌↔◌, ◌-◌, ◌<◌, ℕ, length, IfOk};
ghost use Rattle.typing.specs.Contents.{content_of};
ghost use Rattle.satisfaction.specs.Modalities.{AllFit, IsFirstMisfit};
ghost use Rattle.satisfaction.specs.Satisfaction.{holds_at};
ghost use Rattle.evaluation.specs.Evaluations.{IsTableOf};
ghost use Rattle.evaluation.specs.Truths.{truth_at};
ghost use Rattle.evaluation.specs.declared.fault.CheckFault.TheVariants.{BadNode};

use crate::evaluator::Evaluator;
use crate::fault::CheckFault;
use crate::row::Row;
use formulas::Dag;
use satisfaction::first_misfit;
use std::alloc::{AllocError, Global};
use std::marker::Model;
use typing::Coalgebra;

/// Truths of formulas at the states of a coalgebra.
#[derive(Drop)]
pub struct Truths {
    rows: Vec<Row>,
}

impl Model for Truths {
    ghost use Rattle.std.specs.Prelude.{List, Bool};

    ghost Value = { List (List Bool) };

    ghost view = { λ t. t.rows.items };
}

impl Truths {
    ghost use Rattle.std.specs.Prelude.{◌≡◌, ◌<◌, length};
    ghost use Rattle.evaluation.specs.Truths.{truth_in};

    /// Whether formula f holds at state x.
    pub fn holds(&self, f: u32, x: u32) -> bool
        requires formula { f < length self.now }
        ensures truth { result ≡ truth_in self.now f x }
    {
        let row = &self.rows[f as usize];
        row.truth(x as usize)
    }
}

/// The truths of the formula that was evaluated last, at so many states.
fn newest_row(alloc: Global, evaluator: &Evaluator, states: u32) -> Result<Row, AllocError>
    requires evaluated { 0 < evaluator.now.next }
    requires states { length evaluator.now.content.values ≡ states }
    ensures { IfOk result (λ row. (x : ℕ) → x < states →
        truth_at row x
        ≡ holds_at evaluator.now.content evaluator.now.dag (evaluator.now.next - 1) x) }
{
    let mut row = Row::with_capacity(alloc, states as usize)?;
    for x in 0..states {
        row.push(evaluator.holds(x))?;
    }
    Ok(row)
}

/// The truths of each formula at each state.
fn all_rows(alloc: Global, c: &Coalgebra, dag: &Dag) -> Result<Vec<Row>, AllocError>
    ensures { IfOk result (λ rows. IsTableOf (content_of c.now) dag.now rows.items) }
{
    let states = c.names.len();
    let mut evaluator = Evaluator::new(alloc, c, dag)?;
    let mut rows = Vec::with_capacity(alloc, dag.len() as usize)?;
    for _k in 0..dag.len() {
        evaluator.advance(c, dag)?;
        rows.push(newest_row(alloc, &evaluator, states)?)?;
    }
    Ok(rows)
}

/// The truths of all formulas of a list. `BadNode`: some modality does not fit the term, and this
/// is the first. `NoMemory`: memory was wanting, or the values have 2^26 structures or edges.
pub fn evaluate(alloc: Global, c: &Coalgebra, dag: &Dag) -> Result<Truths, CheckFault>
    ensures bad_node { (index : ℕ) →
        (result ≡ Err (BadNode index)) ↔ IsFirstMisfit c.now.term dag.now index }
    ensures truths { IfOk result (λ t. IsTableOf (content_of c.now) dag.now t) }
    ensures fitting { IfOk result (λ _. AllFit c.now.term dag.now) }
{
    if let Some(index) = first_misfit(&c.term, dag) {
        return Err(CheckFault::BadNode { index });
    }
    let rows = all_rows(alloc, c, dag)?;
    Ok(Truths { rows })
}
