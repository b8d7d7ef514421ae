//! The kinds of layers.

ghost use Rattle.std.specs.Prelude.{◌≡◌, ◌<◌, length};
ghost use Rattle.functor_terms.specs.Terms.{node_at};
ghost use Rattle.desorting.specs.Numbered.{kind_of};

use functor_terms::{Node, Term};
use layers::Kind;
use polynomial_iface::Form;
use typing::Value;

/// The kind of the layer of a structure with so many children.
pub(crate) fn kind(term: &Term, node: u32, value: &Value, count: u32) -> Kind
    requires inside { node < length term.now }
    ensures { result ≡ kind_of (node_at term.now node) value.now count }
{
    match term.node(node) {
        Node::State => Kind::Poly(Form::Identity),
        Node::Constant(_) => Kind::Poly(Form::Constant(value.label())),
        Node::Naturals => Kind::Poly(Form::Constant(value.label())),
        Node::Product => Kind::Poly(Form::Places(count)),
        Node::Sum => Kind::Poly(Form::Tagged(value.index())),
        Node::Power(_) => Kind::Poly(Form::Places(count)),
        Node::Powerset => Kind::Set,
        Node::Bag => Kind::Bag,
        Node::Integers => Kind::Whole,
        Node::Rationals => Kind::Scaled,
        Node::Distribution => Kind::Dist,
    }
}
