//! The shapes and labels of structures, as numbers in tables.

ghost use Rattle.std.specs.Prelude.{◌≡◌, ◌<◌, ◌^◌, ◌++◌, [], ◌∷◌, ℕ, List, length, slice_get, Some, IfOk};
ghost use Rattle.typing.specs.Layers.{Place, leaves_of};
ghost use Rattle.layers.specs.Tables.{Keeps};
ghost use Rattle.desorting.specs.Numbered.{layer_shape, IsLabelled, AreNumbered};

use crate::kinds::kind;
use crate::labels::add_labels;
use functor_terms::Term;
use layers::LayerTable;
use std::alloc::{AllocError, Global};
use structures::{Places, child_count};
use typing::Value;

/// The number of the shape of each structure, and those of the labels of all edges in order.
#[derive(Drop)]
pub(crate) struct Numbers {
    pub shapes: Vec<u32>,
    pub labels: Vec<u32>,
}

/// Adds the number of the shape of a structure, and those of its labels.
fn add_structure(
    term: &Term,
    node: u32,
    value: &Value,
    table: &mut LayerTable,
    shapes: &mut Vec<u32>,
    labels: &mut Vec<u32>,
) -> Result<(), AllocError>
    requires inside { node < length term.now }
    requires few { length (leaves_of term.now (node, value.now)) < 2 ^ 32 }
    ensures shape { IfOk result (λ _. (s : ℕ) ×
        (shapes.new.items ≡ shapes.old.items ++ s ∷ []) ×
        (slice_get table.new.shapes s ≡ Some (layer_shape term.now (node, value.now)))) }
    ensures labels { IfOk result (λ _. (ys : List ℕ) ×
        (labels.new.items ≡ labels.old.items ++ ys) ×
        IsLabelled term.now table.new.weights (node, value.now) ys) }
    ensures kept { IfOk result (λ _. Keeps table.old.shapes table.new.shapes) }
    ensures kept_weights { IfOk result (λ _.
        Keeps table.old.weights table.new.weights) }
{
    let count = child_count(term, node, value) as u32;
    let shape = table.shape(node, kind(term, node, value, count))?;
    shapes.push(shape)?;
    add_labels(term, node, value, count, table, labels)?;
    Ok(())
}

/// The numbers of the shapes of structures, and of the labels of so many edges.
pub(crate) fn numbered(
    alloc: Global,
    term: &Term,
    places: &Places,
    edges: usize,
    table: &mut LayerTable,
) -> Result<Numbers, AllocError>
    requires inside { (y : ℕ) (x : Place) → slice_get places.now y ≡ Some x
        → x.0 < length term.now }
    requires few { (y : ℕ) (x : Place) → slice_get places.now y ≡ Some x
        → length (leaves_of term.now x) < 2 ^ 32 }
    requires none { (table.old.shapes ≡ []) × (table.old.weights ≡ []) }
    ensures numbered { IfOk result (λ n. AreNumbered term.now table.new.shapes
        table.new.weights places.now n.shapes.items n.labels.items) }
{
    term.is_term();
    let mut shapes = Vec::with_capacity(alloc, places.len())?;
    let mut labels = Vec::with_capacity(alloc, edges)?;
    for i in 0..places.len() {
        let (node, value) = places.get(i);
        add_structure(term, node, value, table, &mut shapes, &mut labels)?;
    }
    Ok(Numbers { shapes, labels })
}
