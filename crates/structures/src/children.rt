//! The children of a structure.

ghost use Rattle.std.specs.Prelude.{◌≡◌, ◌<◌, [], ◌∷◌, List, length, slice_get, Some};
ghost use Rattle.std.specs.List.{zip};
ghost use Rattle.typing.specs.Values.{index, inner, parts};
ghost use Rattle.typing.specs.Layers.{at_child, weighed, children_of};

use functor_terms::{Node, Term};
use typing::Value;

/// How many of so many values stand at the k-th of some nodes.
fn count_at(nodes: &[u32], k: usize, count: usize) -> usize
    ensures { (us : List Value) → length us ≡ count →
        result ≡ length (at_child nodes.now k us) }
{
    if k < nodes.len() { count } else { 0 }
}

/// How many children a structure has.
pub fn child_count(term: &Term, node: u32, value: &Value) -> usize
    requires inside { node < length term.now }
    ensures count { result ≡ length (children_of term.now (node, value.now)) }
{
    let nodes = term.children(node);
    match term.node(node) {
        Node::State => 1,
        Node::Constant(_) => 0,
        Node::Naturals => 0,
        Node::Product => nodes.len().min(value.parts().len()),
        Node::Sum => count_at(nodes, value.index() as usize, 1),
        Node::Power(_) => count_at(nodes, 0, value.parts().len()),
        Node::Powerset => count_at(nodes, 0, value.parts().len()),
        Node::Bag => count_at(nodes, 0, value.entries().len()),
        Node::Distribution => count_at(nodes, 0, value.entries().len()),
        Node::Integers => count_at(nodes, 0, value.entries().len()),
        Node::Rationals => count_at(nodes, 0, value.entries().len()),
    }
}

/// The i-th of the parts of a value that stand beside nodes.
fn part_beside<'a>(nodes: &[u32], value: &'a Value, i: usize) -> (u32, &'a Value)
    requires there { i < length (zip nodes.now (parts value.now)) }
    ensures { slice_get (zip nodes.now (parts value.now)) i ≡ Some (result.0, result.1.now) }
{
    (nodes[i], &value.parts()[i])
}

/// The i-th of the parts of a value, which stand at the first node.
fn part_at<'a>(nodes: &[u32], value: &'a Value, i: usize) -> (u32, &'a Value)
    requires there { i < length (at_child nodes.now 0 (parts value.now)) }
    ensures { slice_get (at_child nodes.now 0 (parts value.now)) i
        ≡ Some (result.0, result.1.now) }
{
    (nodes[0], &value.parts()[i])
}

/// The i-th of the values that have weights, which stand at the first node.
fn weighed_at<'a>(nodes: &[u32], value: &'a Value, i: usize) -> (u32, &'a Value)
    requires there { i < length (at_child nodes.now 0 (weighed value.now)) }
    ensures { slice_get (at_child nodes.now 0 (weighed value.now)) i
        ≡ Some (result.0, result.1.now) }
{
    (nodes[0], &value.entries()[i].0)
}

/// The value in an injection, which stands at the node of its index.
fn inner_at<'a>(nodes: &[u32], value: &'a Value, i: usize) -> (u32, &'a Value)
    requires there { i < length (at_child nodes.now (index value.now) (inner value.now ∷ [])) }
    ensures { slice_get (at_child nodes.now (index value.now) (inner value.now ∷ [])) i
        ≡ Some (result.0, result.1.now) }
{
    (nodes[value.index() as usize], value.inner())
}

/// A child of a structure: the node and the value that stand at a place.
pub(crate) fn child<'a>(term: &Term, node: u32, value: &'a Value, i: usize) -> (u32, &'a Value)
    requires inside { node < length term.now }
    requires place { i < length (children_of term.now (node, value.now)) }
    ensures { slice_get (children_of term.now (node, value.now)) i
        ≡ Some (result.0, result.1.now) }
{
    let nodes = term.children(node);
    match term.node(node) {
        Node::Product => part_beside(nodes, value, i),
        Node::Sum => inner_at(nodes, value, i),
        Node::Power(_) => part_at(nodes, value, i),
        Node::Powerset => part_at(nodes, value, i),
        Node::Bag => weighed_at(nodes, value, i),
        Node::Distribution => weighed_at(nodes, value, i),
        Node::Integers => weighed_at(nodes, value, i),
        Node::Rationals => weighed_at(nodes, value, i),
        Node::State => (node, value),
        Node::Constant(_) => (node, value),
        Node::Naturals => (node, value),
    }
}
