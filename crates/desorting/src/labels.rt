//! The labels of the edges of a structure, as numbers.

ghost use Rattle.std.specs.Prelude.{◌≡◌, ◌<◌, ◌^◌, ◌++◌, ℕ, ℤ, List, length, slice_get, Some, IfOk};
ghost use Rattle.functor_terms.specs.Terms.{node_at};
ghost use Rattle.typing.specs.Values.{parts, entries};
ghost use Rattle.polynomial_iface.specs.Polys.{numbers_from};
ghost use Rattle.structures.specs.Structures.{repeated};
ghost use Rattle.layers.specs.Tables.{Keeps};
ghost use Rattle.desorting.specs.Numbered.{weights_in, AreWeighed, AreLabelled};

use functor_terms::{Node, Term};
use layers::LayerTable;
use std::alloc::AllocError;
use typing::Value;

/// Adds a label for each of so many members of a set.
fn add_members(labels: &mut Vec<u32>, count: usize) -> Result<(), AllocError>
    ensures { IfOk result (λ _. labels.new.items ≡ labels.old.items ++ repeated 0 count) }
{
    for _ in 0..count {
        labels.push(0)?;
    }
    Ok(())
}

/// Adds the numbers of so many places.
fn add_places(labels: &mut Vec<u32>, count: u32) -> Result<(), AllocError>
    ensures { IfOk result (λ _. labels.new.items ≡ labels.old.items ++ numbers_from 0 count) }
{
    for i in 0..count {
        labels.push(i)?;
    }
    Ok(())
}

/// The i-th weight.
fn weight_at(value: &Value, i: usize) -> i128
    requires { i < length (entries value.now) }
    ensures { slice_get (weights_in value.now) i ≡ Some result }
{
    let entry = &value.entries()[i];
    entry.1
}

/// Adds the numbers of the weights of a value.
fn add_weights(
    table: &mut LayerTable,
    labels: &mut Vec<u32>,
    value: &Value,
) -> Result<(), AllocError>
    ensures labels { IfOk result (λ _. (ys : List ℕ) ×
        (labels.new.items ≡ labels.old.items ++ ys) ×
        AreWeighed table.new.weights (weights_in value.now) ys) }
    ensures kept { IfOk result (λ _. Keeps table.old.weights table.new.weights) }
    ensures shapes { IfOk result (λ _. table.new.shapes ≡ table.old.shapes) }
{
    for i in 0..value.entries().len() {
        let number = table.weight(weight_at(value, i))?;
        labels.push(number)?;
    }
    Ok(())
}

/// Adds the numbers of the labels of a structure with so many children.
pub(crate) fn add_labels(
    term: &Term,
    node: u32,
    value: &Value,
    count: u32,
    table: &mut LayerTable,
    labels: &mut Vec<u32>,
) -> Result<(), AllocError>
    requires inside { node < length term.now }
    ensures labels { IfOk result (λ _. (ys : List ℕ) ×
        (labels.new.items ≡ labels.old.items ++ ys) ×
        AreLabelled table.new.weights (node_at term.now node) value.now count ys) }
    ensures kept { IfOk result (λ _. Keeps table.old.weights table.new.weights) }
    ensures shapes { IfOk result (λ _. table.new.shapes ≡ table.old.shapes) }
{
    match term.node(node) {
        Node::Powerset => add_members(labels, value.parts().len()),
        Node::Bag => add_weights(table, labels, value),
        Node::Distribution => add_weights(table, labels, value),
        Node::Integers => add_weights(table, labels, value),
        Node::Rationals => add_weights(table, labels, value),
        Node::State => add_places(labels, count),
        Node::Constant(_) => add_places(labels, count),
        Node::Naturals => add_places(labels, count),
        Node::Product => add_places(labels, count),
        Node::Sum => add_places(labels, count),
        Node::Power(_) => add_places(labels, count),
    }
}
