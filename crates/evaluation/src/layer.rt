//! Whether the layer of a structure has a value. The value of the layer is made only where it takes
//! no memory.

ghost use Rattle.std.specs.Prelude.{◌≡◌, ◌≤◌, ◌<◌, ◌^◌, ◌==◌, length, slice_index, IsTrue};
ghost use Rattle.std.specs.List.{list_any};
ghost use Rattle.functor_terms.specs.Terms.{node_at};
ghost use Rattle.typing.specs.Bounds.{is_within};
ghost use Rattle.formulas.specs.Truth.{is_value};
ghost use Rattle.formula_checker.specs.LayerValues.{bit_of, members_of, layer_value};
ghost use Rattle.modalities.specs.declared.three.Three.TheVariants.{Trits};

use crate::weighing::has_weights;
use functor_terms::{Node, Term};
use modalities::Three;
use typing::Value;

/// The first trit, and 0 where there is none.
fn first_trit(trits: &[u8]) -> u8
    ensures { result ≡ slice_index trits.now 0 }
{
    match trits.get(0) {
        Some(trit) => *trit,
        None => 0,
    }
}

/// The trit occurs.
fn occurs(trits: &[u8], trit: u8) -> bool
    ensures { result ≡ list_any (λ t. t == trit) trits.now }
{
    trits.iter().any(|t| *t == trit)
}

/// 1 where the trit occurs, and else 0.
fn bit_of(trits: &[u8], trit: u8) -> u8
    ensures bit { result ≡ bit_of trits.now trit }
    ensures small { result ≤ 1 }
{
    if occurs(trits, trit) { 1 } else { 0 }
}

/// The set of the trits that occur.
fn members_of(trits: &[u8]) -> u8
    ensures { result ≡ members_of trits.now }
{
    bit_of(trits, 0) + 2 * bit_of(trits, 1) + 4 * bit_of(trits, 2)
}

/// The value has these trits.
fn has_trits(trits: &[u8], value: &Three) -> bool
    ensures { result ≡ is_value (Trits trits.now) value.now }
{
    match value {
        Three::Trits(wanted) => trits == wanted.as_slice(),
        Three::Label(_) => false,
        Three::Trit(_) => false,
        Three::Tagged(_, _) => false,
        Three::Members(_) => false,
        Three::Triple(_) => false,
    }
}

/// The layer of a structure at a node has the value, with a trit for each child.
pub(crate) fn has_value(
    term: &Term,
    denominator: u64,
    node: u32,
    structure: &Value,
    trits: &[u8],
    value: &Three,
) -> bool
    requires inside { node < length term.now }
    requires positive { 1 ≤ denominator }
    requires within { IsTrue (is_within (2 ^ 106) structure.now) }
    ensures { result
        ≡ is_value (layer_value denominator (node_at term.now node) structure.now trits.now)
        value.now }
{
    match term.node(node) {
        Node::State => Three::Trit(first_trit(trits)) == *value,
        Node::Constant(_) => Three::Label(structure.label()) == *value,
        Node::Naturals => Three::Label(structure.label()) == *value,
        Node::Product => has_trits(trits, value),
        Node::Power(_) => has_trits(trits, value),
        Node::Sum => Three::Tagged(structure.index(), first_trit(trits)) == *value,
        Node::Powerset => Three::Members(members_of(trits)) == *value,
        Node::Bag => has_weights(structure.entries(), trits, 1, value),
        Node::Integers => has_weights(structure.entries(), trits, 1, value),
        Node::Distribution => has_weights(structure.entries(), trits, denominator, value),
        Node::Rationals => has_weights(structure.entries(), trits, denominator, value),
    }
}
