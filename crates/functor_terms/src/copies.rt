//! Copies of terms and of their labels.
ghost use Rattle.std.specs.Prelude.{◌≡◌, IfOk};

use crate::labels::Labels;
use crate::node::{Branch, LabelSet, Node};
use crate::term::Term;
use sqlite_items::Items;
use std::alloc::{AllocError, Global};

impl<'a> Labels<'a> {
    /// A table of the same words.
    pub fn try_copy(&self, alloc: Global) -> Result<Labels<'a>, AllocError>
        ensures { IfOk result (λ copy. copy ≡ self.now) }
    {
        self.are_names();
        let mut copy = Labels::new(alloc);
        let count = self.len();
        for i in 0..count {
            copy.add(self.word(i))?;
        }
        Ok(copy)
    }
}

impl<'a> LabelSet<'a> {
    /// The same labels.
    pub fn try_copy(&self, alloc: Global) -> Result<LabelSet<'a>, AllocError>
        ensures { IfOk result (λ copy. copy ≡ self.now) }
    {
        match self {
            LabelSet::Listed(words) => Ok(LabelSet::Listed(words.try_copy(alloc)?)),
            LabelSet::Below(n) => Ok(LabelSet::Below(*n)),
        }
    }
}

impl<'a> Node<'a> {
    /// The same form of functor.
    fn try_copy(&self, alloc: Global) -> Result<Node<'a>, AllocError>
        ensures { IfOk result (λ copy. copy ≡ self.now) }
    {
        match self {
            Node::State => Ok(Node::State),
            Node::Constant(labels) => Ok(Node::Constant(labels.try_copy(alloc)?)),
            Node::Naturals => Ok(Node::Naturals),
            Node::Product => Ok(Node::Product),
            Node::Sum => Ok(Node::Sum),
            Node::Power(labels) => Ok(Node::Power(labels.try_copy(alloc)?)),
            Node::Powerset => Ok(Node::Powerset),
            Node::Bag => Ok(Node::Bag),
            Node::Distribution => Ok(Node::Distribution),
            Node::Integers => Ok(Node::Integers),
            Node::Rationals => Ok(Node::Rationals),
        }
    }
}

impl<'a> Branch<'a> {
    fn try_copy(&self, alloc: Global) -> Result<Branch<'a>, AllocError>
        ensures { IfOk result (λ copy. copy ≡ self.now) }
    {
        Ok(Branch {
            node: self.node.try_copy(alloc)?,
            children: Items::from_slice(alloc, self.children.as_slice())?,
        })
    }
}

impl<'a> Term<'a> {
    /// An equal term.
    pub fn try_copy(&self, alloc: Global) -> Result<Term<'a>, AllocError>
        ensures { IfOk result (λ copy. copy ≡ self.now) }
    {
        let mut nodes = Vec::new(alloc);
        let branches = self.nodes.as_slice();
        for branch in branches {
            nodes.push(branch.try_copy(alloc)?)?;
        }
        Ok(Term { nodes })
    }
}
