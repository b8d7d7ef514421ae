//! Lists of formulas.

use crate::formula::Formula;
use std::alloc::{AllocError, Global};
use std::marker::Model;

/// A list of formulas in which each cites smaller numbers alone.
#[derive(Debug, Drop)]
pub struct Dag {
    items: Vec<Formula>,
}

impl Model for Dag {
    ghost use Rattle.std.specs.Prelude.{List, ◌<◌, ◌^◌, length};
    ghost use Rattle.formulas.specs.declared.formula.Formula.{Formula};
    ghost use Rattle.formulas.specs.Formulas.{IsDag};

    ghost Value = { List Formula };

    ghost view = { λ dag. dag.items.items };

    ghost invariant = { λ dag. IsDag dag.items.items × (length dag.items.items < 2 ^ 32) };
}

impl Dag {
    ghost use Rattle.std.specs.Prelude.{◌≡◌, ◌+◌, ◌<◌, ◌^◌, [], ◌∷◌, ◌++◌, List, length, slice_get, Some, IfOk, MatchResult};
    ghost use Rattle.formulas.specs.Formulas.{CitesBelow, IsDag};

    /// No formula.
    pub fn new(alloc: Global) -> Dag
        ensures none { result ≡ [] }
    {
        Dag {
            items: Vec::new(alloc),
        }
    }

    /// What holds of every dag. Nothing is read or done.
    pub fn is_dag(&self)
        ensures ordered { IsDag self.now }
        ensures few { length self.now < 2 ^ 32 }
    {
        let _items = &self.items;
    }

    /// How many formulas there are: fewer than 2^32.
    pub fn len(&self) -> u32
        ensures { result ≡ length self.now }
    {
        self.items.len() as u32
    }

    /// The formula with a number, counted from 0.
    pub fn formula(&self, k: u32) -> &Formula
        requires { k < length self.now }
        ensures there { slice_get self.now k ≡ Some result.now }
    {
        &self.items[k as usize]
    }

    /// Puts a formula last, which cites formulas that are there, and answers its number. There is
    /// room for fewer than 2^32. Where memory is wanting nothing changes.
    pub fn push(&mut self, f: Formula) -> Result<u32, AllocError>
        requires cites { CitesBelow (length self.old) f }
        requires room { length self.old + 1 < 2 ^ 32 }
        ensures last { MatchResult result
            (λ k. (k ≡ length self.old) × (self.new ≡ self.old ++ f ∷ []))
            (λ e. self.new ≡ self.old) }
    {
        let k = self.len();
        self.items.push(f)?;
        Ok(k)
    }
}
