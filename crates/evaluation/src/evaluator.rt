//! The evaluator: formulas are evaluated in their order, each at all states at once.

use crate::edges::{LaidOut, laid_out};
use crate::row::Row;
use crate::rows::add_row;
use crate::uses::last_uses;
use formulas::Dag;
use std::alloc::{AllocError, Global};
use std::marker::Model;
use typing::Coalgebra;

/// Truths of formulas at the states of a coalgebra, one formula after the other. It keeps the rows
/// of the newest formula and of those that a later one cites.
#[derive(Drop)]
pub struct Evaluator<'a> {
    alloc: Global,
    coalgebra: &'a Coalgebra<'a>,
    dag: &'a Dag,
    structures: LaidOut<'a>,
    last_uses: Vec<u32>,
    rows: Vec<Row>,
}

impl<'a> Model for Evaluator<'a> {
    ghost use Rattle.std.specs.Prelude.{length};
    ghost use Rattle.typing.specs.Contents.{content_of};
    ghost use Rattle.evaluation.specs.Evaluations.{Evaluation};
    ghost use Rattle.evaluation.specs.Rows.{IsEvaluating};
    ghost use Rattle.typing.specs.contracts.value.Value as e;
    ghost use Rattle.std.specs.Coded.{codes};

    ghost Value = { Evaluation };

    ghost coded = { Prim.hlevel (codes, e.the_row.coded) };

    ghost view = { λ s. record {
      content = content_of s.coalgebra.now;
      dag = s.dag.now;
      next = length s.rows.items;
    } };

    ghost invariant = { λ s. IsEvaluating (content_of s.coalgebra.now) s.dag.now
        s.structures.places s.structures.firsts.items s.structures.targets.items
        s.last_uses.items s.rows.items };
}

impl<'a> Evaluator<'a> {
    ghost use Rattle.std.specs.Prelude.{◌≡◌, ◌+◌, ◌-◌, ◌<◌, length, IfOk};
    ghost use Rattle.typing.specs.Contents.{content_of};
    ghost use Rattle.satisfaction.specs.Satisfaction.{holds_at};

    /// The evaluator before the first formula. The error is want of memory, and comes also where
    /// the values have 2^26 structures or edges, as in no file.
    pub fn new(
        alloc: Global,
        c: &'a Coalgebra<'a>,
        dag: &'a Dag,
    ) -> Result<Evaluator<'a>, AllocError>
        ensures content { IfOk result (λ e. e.content ≡ content_of c.now) }
        ensures dag { IfOk result (λ e. e.dag ≡ dag.now) }
        ensures next { IfOk result (λ e. e.next ≡ 0) }
    {
        dag.is_dag();
        let structures = laid_out(alloc, c)?;
        let last_uses = last_uses(alloc, dag)?;
        Ok(Evaluator {
            alloc,
            coalgebra: c,
            dag,
            structures,
            last_uses,
            rows: Vec::with_capacity(alloc, dag.len() as usize)?,
        })
    }

    /// Evaluates the next formula, of the coalgebra and the list of `new`. The error is want of
    /// memory.
    pub fn advance(&mut self, c: &Coalgebra, dag: &Dag) -> Result<(), AllocError>
        requires content { self.old.content ≡ content_of c.now }
        requires dag { self.old.dag ≡ dag.now }
        requires left { self.old.next < length dag.now }
        ensures content { IfOk result (λ _. self.new.content ≡ self.old.content) }
        ensures dag { IfOk result (λ _. self.new.dag ≡ self.old.dag) }
        ensures next { IfOk result (λ _. self.new.next ≡ self.old.next + 1) }
    {
        add_row(
            self.alloc,
            self.coalgebra,
            self.dag,
            &self.structures,
            self.last_uses.as_slice(),
            &mut self.rows,
        )
    }

    /// Whether the formula that was evaluated last holds at state x.
    pub fn holds(&self, x: u32) -> bool
        requires evaluated { 0 < self.now.next }
        requires state { x < length self.now.content.values }
        ensures truth { result
            ≡ holds_at self.now.content self.now.dag (self.now.next - 1) x }
    {
        self.rows[self.rows.len() - 1].truth(x as usize)
    }
}
