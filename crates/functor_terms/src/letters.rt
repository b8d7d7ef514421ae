//! The nodes that letters stand for.
ghost use Rattle.std.specs.Prelude.{◌≡◌, IfSome, IsTrue};
ghost use Rattle.functor_terms.specs.Terms.{takes, HasLabels};
ghost use Rattle.functor_terms.specs.Grammar.{prefix_of as the_prefix_of, weights_of as the_weights_of, letter_of as the_letter_of};

use crate::node::Node;
use crate::sign::Sign;

/// The node that a letter before another term stands for.
pub fn prefix_of<'a>(sign: &Sign) -> Option<Node<'a>>
    ensures node { result ≡ the_prefix_of sign.now }
    ensures stands { IfSome result (λ node. IsTrue (takes node 1) × HasLabels node) }
{
    match sign {
        Sign::P => Some(Node::Powerset),
        Sign::B => Some(Node::Bag),
        Sign::D => Some(Node::Distribution),
        _ => None,
    }
}

/// The node of weights that a letter before `^(` stands for.
pub fn weights_of<'a>(sign: &Sign) -> Option<Node<'a>>
    ensures node { result ≡ the_weights_of sign.now }
    ensures stands { IfSome result (λ node. IsTrue (takes node 1) × HasLabels node) }
{
    match sign {
        Sign::N => Some(Node::Bag),
        Sign::Z => Some(Node::Integers),
        Sign::Q => Some(Node::Rationals),
        _ => None,
    }
}

/// The node without children that a letter stands for by itself.
pub fn letter_of<'a>(sign: &Sign) -> Option<Node<'a>>
    ensures node { result ≡ the_letter_of sign.now }
    ensures stands { IfSome result (λ node. IsTrue (takes node 0) × HasLabels node) }
{
    match sign {
        Sign::X => Some(Node::State),
        Sign::N => Some(Node::Naturals),
        _ => None,
    }
}
