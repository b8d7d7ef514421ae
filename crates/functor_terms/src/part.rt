//! Terms put together from smaller ones.
//!
//! Shape: inside a part a child is given by how far behind its node it stands, so that nothing of a
//! part changes when it comes to stand in a larger one. `into_term` gives children their numbers.
ghost use Rattle.std.specs.Prelude.{◌≡◌, ◌+◌, ◌<◌, ◌≤◌, ◌↔◌, ◌^◌, length, map, slice_index, EachIndex, IfOk, IsTrue};
ghost use Rattle.std.specs.List.{AllByRecursion};
ghost use Rattle.functor_terms.specs.Terms.{over as part_over, placed, starts, nodes_of, deepest, takes as node_takes, node_limit, HasLabels, AreLabels, IsWithin, IsSmall, Stands};

use crate::fault::PartFault;
use crate::node::{Branch, LabelSet, Node};
use crate::term::Term;
use sqlite_items::Items;
use std::alloc::{AllocError, Global};
use std::marker::Model;

/// The most nodes that a term may have.
pub const NODE_LIMIT: usize = 256;
/// The greatest depth that a term may have.
pub const DEPTH_LIMIT: u32 = 32;
/// The most labels that a constant or an exponent may have.
pub const LABEL_LIMIT: u32 = 65_536;

/// A term that may come to stand in a larger one.
#[derive(Drop)]
pub struct TermPart<'a> {
    nodes: Vec<Branch<'a>>,
    depth: u32,
}

impl<'a> Model for TermPart<'a> {
    ghost use Rattle.functor_terms.specs.Terms.{Part, IsWithin};

    ghost Value = { Part };

    ghost view = { λ part. (part.nodes.items, part.depth) };

    ghost invariant = { λ part. IsWithin (part.nodes.items, part.depth) };
}

impl<'a> TermPart<'a> {
    /// How many nodes there are.
    pub(crate) fn len(&self) -> usize
        ensures count { result ≡ length self.now.0 }
        ensures within { IsWithin self.now }
    {
        self.nodes.len()
    }

    /// How deep it is: 1 without children, else one more than the deepest of these.
    fn depth(&self) -> u32
        ensures depth { result ≡ self.now.1 }
        ensures within { IsWithin self.now }
    {
        self.depth
    }

    /// The node over its children. Malformed comes exactly where the node takes another number of
    /// children, its labels are not from 1 to 65,536, or there are more than 256 nodes or a depth
    /// of more than 32.
    pub fn over(
        alloc: Global,
        node: Node<'a>,
        parts: Vec<TermPart<'a>>,
    ) -> Result<TermPart<'a>, PartFault>
        ensures part { IfOk result (λ part. part ≡ part_over node.entry parts.entry.items) }
        ensures stands { IfOk result (λ part. Stands node.entry parts.entry.items) }
        ensures malformed { result ≡ Err PartFault.Malformed →
            ¬ Stands node.entry parts.entry.items }
    {
        if !takes(&node, parts.len()) || !has_labels(&node) {
            return Err(PartFault::Malformed);
        }
        let Outline { children, depth } = outline_of(alloc, parts.as_slice())?;
        let mut nodes = Vec::new(alloc);
        nodes.push(Branch { node, children })?;
        nodes.append(&mut joined(alloc, parts)?)?;
        Ok(TermPart {
            nodes,
            depth: depth + 1,
        })
    }

    /// The term, in which each child is given by its number.
    pub fn into_term(self, alloc: Global) -> Result<Term<'a>, AllocError>
        ensures { IfOk result (λ term. term ≡ placed 0 self.entry.0) }
    {
        let mut nodes = Vec::new(alloc);
        let mut left = self.nodes.into_iter();
        let mut p = 0u32;
        while let Some(Branch { node, children }) = left.next() {
            let children = moved(alloc, p, children.as_slice())?;
            nodes.push(Branch { node, children })?;
            p += 1;
        }
        Ok(Term { nodes })
    }
}

/// Children that stand so far behind node p, by their numbers.
fn moved(alloc: Global, p: u32, children: &[u32]) -> Result<Items<u32>, AllocError>
    requires { EachIndex children.now (λ k. p + slice_index children.now k < 2 ^ 32) }
    ensures { IfOk result (λ moved. moved ≡ map (λ child. p + child) children.now) }
{
    let mut moved = Items::new(alloc);
    for child in children {
        moved.push(p + *child)?;
    }
    Ok(moved)
}

/// Whether the node may have so many children.
fn takes(node: &Node, count: usize) -> bool
    ensures { result ≡ node_takes node.now count }
{
    match node {
        Node::State | Node::Constant(_) | Node::Naturals => count == 0,
        Node::Product | Node::Sum => 2 <= count,
        Node::Power(_)
        | Node::Powerset
        | Node::Bag
        | Node::Distribution
        | Node::Integers
        | Node::Rationals => count == 1,
    }
}

/// Whether there are from 1 to 65,536 labels.
fn are_labels(labels: &LabelSet) -> bool
    ensures { IsTrue result ↔ AreLabels labels.now }
{
    match labels {
        LabelSet::Listed(words) => {
            words.are_names();
            let count = words.len();
            0 < count && count <= LABEL_LIMIT
        }
        LabelSet::Below(n) => 0 < *n && *n <= LABEL_LIMIT,
    }
}

/// Whether the labels of the node, if it has labels, are within their bounds.
fn has_labels(node: &Node) -> bool
    ensures { IsTrue result ↔ HasLabels node.now }
{
    match node {
        Node::Constant(labels) | Node::Power(labels) => are_labels(labels),
        _ => true,
    }
}

/// Where the parts begin, one behind another and the first right behind their node, and how deep
/// they are.
struct Outline {
    children: Items<u32>,
    depth: u32,
}

fn outline_of(alloc: Global, parts: &[TermPart]) -> Result<Outline, PartFault>
    ensures children { IfOk result (λ made. made.children ≡ starts 1 parts.now) }
    ensures depth { IfOk result (λ made. (made.depth ≡ deepest parts.now) × (made.depth < 32)) }
    ensures few { IfOk result (λ made. length (nodes_of parts.now) < node_limit) }
    ensures within { IfOk result (λ made. AllByRecursion IsWithin parts.now) }
    ensures malformed { result ≡ Err PartFault.Malformed → ¬ IsSmall parts.now }
{
    let mut children = Items::new(alloc);
    let mut next = 1u32;
    let mut depth = 0u32;
    for part in parts {
        children.push(next)?;
        next += part.len() as u32;
        depth = depth.max(part.depth());
        if next as usize > NODE_LIMIT || depth >= DEPTH_LIMIT {
            return Err(PartFault::Malformed);
        }
    }
    Ok(Outline { children, depth })
}

/// The nodes of all parts.
fn joined<'a>(alloc: Global, parts: Vec<TermPart<'a>>) -> Result<Vec<Branch<'a>>, AllocError>
    ensures { IfOk result (λ nodes. nodes.items ≡ nodes_of parts.entry.items) }
{
    let mut left = parts;
    let mut nodes = Vec::new(alloc);
    while let Some(part) = left.pop() {
        let TermPart {
            nodes: mut front,
            depth: _,
        } = part;
        front.append(&mut nodes)?;
        nodes = front;
    }
    Ok(nodes)
}
