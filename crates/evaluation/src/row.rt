//! Rows of truths.

use crate::bits::{bit_of, push_bit};
use std::alloc::{AllocError, Global};
use std::marker::Model;

/// Truths of one formula, in order, a bit for each.
#[derive(Drop)]
pub(crate) struct Row {
    words: Vec<u64>,
    len: usize,
}

impl Model for Row {
    ghost use Rattle.std.specs.Prelude.{List, Bool};
    ghost use Rattle.evaluation.specs.Packed.{has_bit, first_truths, ArePacked};

    ghost Value = { List Bool };

    ghost view = { λ r. first_truths (has_bit r.words.items) r.len };

    ghost invariant = { λ r. ArePacked r.words.items r.len };
}

impl Row {
    ghost use Rattle.std.specs.Prelude.{◌≡◌, ◌+◌, ◌<◌, ◌^◌, [], ◌∷◌, ◌++◌, length, IfOk};
    ghost use Rattle.evaluation.specs.Truths.{truth_at};

    /// No truths.
    pub(crate) fn new(alloc: Global) -> Row
        ensures none { result ≡ [] }
    {
        Row {
            words: Vec::new(alloc),
            len: 0,
        }
    }

    /// No truths, and room for so many.
    pub(crate) fn with_capacity(alloc: Global, room: usize) -> Result<Row, AllocError>
        ensures none { IfOk result (λ r. r ≡ []) }
    {
        Ok(Row {
            words: Vec::with_capacity(alloc, room / 64 + 1)?,
            len: 0,
        })
    }

    /// Puts a truth last.
    pub(crate) fn push(&mut self, truth: bool) -> Result<(), AllocError>
        requires room { length self.old + 1 < 2 ^ 64 }
        ensures last { IfOk result (λ _. self.new ≡ self.old ++ truth ∷ []) }
    {
        push_bit(&mut self.words, self.len, truth)?;
        self.len += 1;
        Ok(())
    }

    /// The truth at a place, and false past the end.
    pub(crate) fn truth(&self, x: usize) -> bool
        ensures there { result ≡ truth_at self.now x }
    {
        x < self.len && bit_of(self.words.as_slice(), x)
    }
}
