//! The two forms of chains: sums of products, and products of powers.
ghost use Rattle.std.specs.Prelude.{◌≡◌};
ghost use Rattle.functor_terms.specs.Links.{sign_of as the_sign_of, node_of as the_node_of};

use crate::ahead::Wanted;
use crate::node::Node;

/// What a chain is: a sum of products, or a product of powers.
#[derive(Clone, Copy, Debug)]
pub enum Link {
    Sum,
    Product,
}

/// The sign between the parts of a chain.
pub fn sign_of(link: Link) -> Wanted
    ensures { result ≡ the_sign_of link }
{
    match link {
        Link::Sum => Wanted::Plus,
        Link::Product => Wanted::Times,
    }
}

/// The node over the parts of a chain.
pub fn node_of<'a>(link: Link) -> Node<'a>
    ensures { result ≡ the_node_of link }
{
    match link {
        Link::Sum => Node::Sum,
        Link::Product => Node::Product,
    }
}
