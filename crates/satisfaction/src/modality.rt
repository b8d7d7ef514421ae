//! Tests of modalities.
ghost use Rattle.std.specs.Prelude.{◌≡◌, ◌↔◌, ◌<◌, ◌==◌, ◌&&◌, length, IfSome, IsNone};
ghost use Rattle.std.specs.List.{list_all};
ghost use Rattle.satisfaction.specs.Modalities.{is_trit, has_form, is_layer, fits_term, AllFit, IsFirstMisfit};

use formulas::{Dag, Formula};
use functor_terms::{Node, Term};
use modalities::Three;

/// Each number is 0, 1 or 2.
fn are_trits(trits: &[u8]) -> bool
    ensures { result ≡ list_all is_trit trits.now }
{
    trits.iter().all(|t| *t <= 2)
}

/// There are so many trits, and each is one.
fn are_so_many(trits: &[u8], count: usize) -> bool
    ensures { result ≡ ((length trits.now == count) && list_all is_trit trits.now) }
{
    trits.len() == count && are_trits(trits)
}

/// The value has the form of a node with so many children.
fn has_form(node: &Node, children: usize, value: &Three) -> bool
    ensures { result ≡ has_form node.now children value.now }
{
    match (node, value) {
        (Node::State, Three::Trit(t)) => *t <= 2,
        (Node::Constant(labels), Three::Label(n)) => *n < u64::from(labels.len()),
        (Node::Naturals, Three::Label(n)) => *n <= 1 << 40,
        (Node::Product, Three::Trits(trits)) => are_so_many(trits.as_slice(), children),
        (Node::Power(labels), Three::Trits(trits)) => {
            are_so_many(trits.as_slice(), labels.len() as usize)
        }
        (Node::Sum, Three::Tagged(i, t)) => (*i as usize) < children && *t <= 2,
        (Node::Powerset, Three::Members(bits)) => *bits < 8,
        (Node::Bag, Three::Triple(_)) => true,
        (Node::Distribution, Three::Triple(_)) => true,
        (Node::Integers, Three::Triple(_)) => true,
        (Node::Rationals, Three::Triple(_)) => true,
        _ => false,
    }
}

/// Structures at the node have a layer of their own.
fn is_layer(term: &Term, p: u32) -> bool
    requires { p < length term.now }
    ensures { result ≡ is_layer term.now p }
{
    p == 0 || !matches!(term.node(p), Node::State)
}

/// Whether a formula is no modality, or one at a layer node of the term whose value has the form of
/// the node.
pub fn fits_modality(term: &Term, f: &Formula) -> bool
    ensures { result ≡ fits_term term.now f.now }
{
    match f {
        Formula::At { node, value, .. } => {
            *node < term.len()
                && is_layer(term, *node)
                && has_form(term.node(*node), term.children(*node).len(), value)
        }
        _ => true,
    }
}

/// The least number of a modality that does not fit, and None exactly where each one fits. It takes
/// no memory.
pub fn first_misfit(term: &Term, dag: &Dag) -> Option<u32>
    ensures none { IsNone result ↔ AllFit term.now dag.now }
    ensures first { IfSome result (λ k. IsFirstMisfit term.now dag.now k) }
{
    for k in 0..dag.len() {
        if !fits_modality(term, dag.formula(k)) {
            return Some(k);
        }
    }
    None
}
