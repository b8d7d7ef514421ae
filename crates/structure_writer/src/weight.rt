//! Weights, put last in a text.
ghost use Rattle.std.specs.Prelude.{◌≡◌, ◌≤◌, ◌++◌, OnOk};
ghost use Rattle.structure_writer.specs.Text.{denominator_at as the_denominator, weight_text};

use functor_terms::Node;
use std::alloc::AllocError;
use weights::{ratio_of, ratio_text};

/// The denominator that weights at a node are counted over, where l is the common one.
fn denominator_at(node: &Node, l: u64) -> u64
    ensures { result ≡ the_denominator l node.now }
{
    match node {
        Node::Distribution | Node::Rationals => l,
        _ => 1,
    }
}

/// Puts the text of a weight at a node last. Over the denominator 1 no fraction is reduced.
pub(crate) fn push_weight(
    text: &mut Vec<u8>,
    node: &Node,
    l: u64,
    weight: i128,
) -> Result<(), AllocError>
    requires { 1 ≤ l }
    ensures { OnOk result (text.new.items ≡ text.old.items ++ weight_text l node.now weight) }
{
    let mut out = [0u8; 64];
    let len = ratio_text(ratio_of(weight, denominator_at(node, l)), &mut out);
    text.extend_from_slice(&out[..len])
}
