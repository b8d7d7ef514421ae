//! Structures, seen as a list of values at nodes.

use std::alloc::{AllocError, Global};
use std::marker::Model;
use typing::Value;

/// Structures, each a value at a node.
#[derive(Drop)]
pub struct Places<'a> {
    items: Vec<(u32, &'a Value)>,
}

impl<'a> Model for Places<'a> {
    ghost use Rattle.std.specs.Prelude.{List, map};
    ghost use Rattle.typing.specs.Layers.{Place};
    ghost use Rattle.typing.specs.contracts.value.Value as e;
    ghost use Rattle.std.specs.Coded.{codes};

    ghost Value = { List Place };

    ghost coded = { Prim.hlevel (codes, e.the_row.coded) };

    ghost view = { λ p. map (λ x. (x.0, x.1.now)) p.items.items };
}

impl<'a> Places<'a> {
    ghost use Rattle.std.specs.Prelude.{◌≡◌, ◌<◌, [], ◌∷◌, ◌++◌, length, slice_get, Some, IfOk};

    /// No structures, and room for so many.
    pub(crate) fn with_capacity(alloc: Global, room: usize) -> Result<Places<'a>, AllocError>
        ensures { IfOk result (λ p. p ≡ []) }
    {
        Ok(Places {
            items: Vec::with_capacity(alloc, room)?,
        })
    }

    /// How many there are.
    pub fn len(&self) -> usize
        ensures count { result ≡ length self.now }
    {
        self.items.len()
    }

    /// The structure with a number: its node and its value.
    pub fn get(&self, i: usize) -> (u32, &'a Value)
        requires { i < length self.now }
        ensures place { slice_get self.now i ≡ Some (result.0, result.1.now) }
    {
        self.items[i]
    }

    /// Adds a structure at the end.
    pub(crate) fn push(&mut self, node: u32, value: &'a Value) -> Result<(), AllocError>
        ensures { IfOk result (λ _. self.new ≡ self.old ++ (node, value.now) ∷ []) }
    {
        self.items.push((node, value))?;
        Ok(())
    }
}
