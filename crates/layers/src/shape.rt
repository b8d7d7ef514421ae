// The shapes of structures of any kind.
ghost use Rattle.std.specs.Prelude.{◌≡◌};
ghost use Rattle.layers.specs.Packing.{class_of};

use polynomial_iface::Form;

/// The kind of a layer.
#[derive(Clone, Copy, Debug, PartialEq, Eq, Hash)]
pub enum Kind {
    /// Finite sets.
    Set,
    /// Bags.
    Bag,
    /// Weights in the whole numbers.
    Whole,
    /// Weights in the fractions, as whole multiples of one fraction.
    Scaled,
    /// Distributions, whose weights are such multiples too.
    Dist,
    /// Constants, products, powers, sums and the identity.
    Poly(Form),
}

/// How the weights of a kind of layer are kept.
#[derive(Clone, Copy, Debug, PartialEq, Eq)]
pub enum Class {
    Set,
    /// Sums, over the common denominator or over 1.
    Sums(bool),
    Form(Form),
}

/// A shape: the functor node and the kind of layer.
#[derive(Clone, Copy, Debug, PartialEq, Eq, Hash)]
pub struct LayerShape {
    pub node: u32,
    pub kind: Kind,
}

/// How the weights of a kind of layer are kept.
pub(crate) fn class_of_kind(kind: Kind) -> Class
    ensures { result ≡ class_of kind }
{
    match kind {
        Kind::Set => Class::Set,
        Kind::Bag => Class::Sums(false),
        Kind::Whole => Class::Sums(false),
        Kind::Scaled => Class::Sums(true),
        Kind::Dist => Class::Sums(true),
        Kind::Poly(form) => Class::Form(form),
    }
}
