//! Terms within the bounds.
ghost use Rattle.std.specs.Prelude.{◌≡◌, ◌<◌, ◌≤◌, length, IfOk};
ghost use Rattle.functor_terms.specs.Terms.{node_at, children_at, placed, IsTerm};

use crate::node::{Branch, Node};
use std::marker::Model;

/// A functor. Its nodes are numbered in preorder from 0.
#[derive(Drop)]
pub struct Term<'a> {
    pub(crate) nodes: Vec<Branch<'a>>,
}

impl<'a> Model for Term<'a> {
    ghost use Rattle.functor_terms.specs.Terms.{Nodes, IsTerm};

    ghost Value = { Nodes };

    ghost view = { λ t. t.nodes.items };

    ghost invariant = { λ t. IsTerm t.nodes.items };
}

impl<'a> Term<'a> {
    /// What holds of every term. Nothing is read or done.
    pub fn is_term(&self)
        ensures { IsTerm self.now }
    {
        let _nodes = &self.nodes;
    }

    /// How many nodes there are, from 1 to 256.
    pub fn len(&self) -> u32
        ensures { result ≡ length self.now }
    {
        self.nodes.len() as u32
    }

    /// The node with a number.
    pub fn node(&self, p: u32) -> &Node<'a>
        requires { p < length self.now }
        ensures { result.now ≡ node_at self.now p }
    {
        &self.nodes[p as usize].node
    }

    /// The numbers of its children, in order: at most 256.
    pub fn children(&self, p: u32) -> &[u32]
        requires { p < length self.now }
        ensures children { result.now ≡ children_at self.now p }
        ensures few { length result.now ≤ 256 }
    {
        self.nodes[p as usize].children.as_slice()
    }
}
