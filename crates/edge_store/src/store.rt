//! The store: its arrays, what callers see of them, and its calls.

ghost use Rattle.std.specs.Prelude.{◌≡◌, ◌+◌, ◌<◌, ◌≤◌, ◌^◌, ◌↔◌, ℕ, length, slice_index, slice_index_or, slice_range, IfOk, All, AllPairs, map};
ghost use Rattle.edge_store.specs.Edges.{sources_of, labels_of, targets_of, labels_from, targets_from, edges_into, AreEdgesInto, first_of};

use crate::arrays::{grouped, starts};
use crate::edge::Edge;
use std::alloc::{AllocError, Global};
use std::marker::Model;

/// The edges of a number of states, in order.
///
/// Edge e goes from `sources[e]` to `targets[e]`. State x has the labels from `from[x]` up to
/// `from[x + 1]`, and the edges into it are the `numbers` from `into[x]` up to `into[x + 1]`.
#[derive(Drop)]
pub struct EdgeStore<A: Copy> {
    pub(crate) count: u32,
    pub(crate) sources: Vec<u32>,
    pub(crate) labels: Vec<A>,
    pub(crate) targets: Vec<u32>,
    pub(crate) from: Vec<u32>,
    pub(crate) into: Vec<u32>,
    pub(crate) numbers: Vec<u32>,
}

impl<A: Copy> Model for EdgeStore<A> {
    ghost use Rattle.edge_store.specs.Edges.{Graph};
    ghost use Rattle.edge_store.specs.Stored.{IsStored, edges_of};

    ghost Value = { Graph A };

    ghost view = { λ s. record {
      states = s.count;
      edges = edges_of s.sources.items s.labels.items s.targets.items;
    } };

    ghost invariant = { λ s. IsStored s.count s.sources.items s.labels.items s.targets.items
        s.from.items s.into.items s.numbers.items };
}

fn sources<A: Copy>(alloc: Global, edges: &[Edge<A>]) -> Result<Vec<u32>, AllocError>
    ensures sources { IfOk result (λ v. v.items ≡ map (λ e. e.source) edges.now) }
{
    edges.iter().map(|e| e.source).collect(alloc)
}

fn labels<A: Copy>(alloc: Global, edges: &[Edge<A>]) -> Result<Vec<A>, AllocError>
    ensures labels { IfOk result (λ v. v.items ≡ map (λ e. e.label) edges.now) }
{
    edges.iter().map(|e| e.label).collect(alloc)
}

fn targets<A: Copy>(alloc: Global, edges: &[Edge<A>]) -> Result<Vec<u32>, AllocError>
    ensures targets { IfOk result (λ v. v.items ≡ map (λ e. e.target) edges.now) }
{
    edges.iter().map(|e| e.target).collect(alloc)
}

impl<A: Copy> EdgeStore<A> {
    /// The edges of n states. They keep their order, and are numbered by it. Sources do not
    /// descend, sources and targets are below n, and there are fewer than 2^26 edges. The error is
    /// want of memory.
    pub fn build(alloc: Global, n: u32, edges: Vec<Edge<A>>) -> Result<EdgeStore<A>, AllocError>
        requires few { length edges.items < 2 ^ 26 }
        requires ascending { AllPairs (λ a b. a ≤ b) (sources_of edges.items) }
        requires sources_in { All (λ s. s < n) (sources_of edges.items) }
        requires targets_in { All (λ t. t < n) (targets_of edges.items) }
        ensures states { IfOk result (λ s. s.states ≡ n) }
        ensures edges { IfOk result (λ s. s.edges ≡ edges.items) }
    {
        let sources = sources(alloc, edges.as_slice())?;
        let labels = labels(alloc, edges.as_slice())?;
        let targets = targets(alloc, edges.as_slice())?;
        let from = starts(alloc, n, sources.as_slice())?;
        let into = starts(alloc, n, targets.as_slice())?;
        let numbers = grouped(alloc, n, targets.as_slice(), into.as_slice())?;
        Ok(EdgeStore {
            count: n,
            sources,
            labels,
            targets,
            from,
            into,
            numbers,
        })
    }

    /// What holds of every store. Nothing is read or done.
    pub fn is_stored(&self)
        ensures few { length self.now.edges < 2 ^ 26 }
        ensures ascending { AllPairs (λ a b. a ≤ b) (sources_of self.now.edges) }
        ensures sources_in { All (λ s. s < self.now.states) (sources_of self.now.edges) }
        ensures targets_in { All (λ t. t < self.now.states) (targets_of self.now.edges) }
        ensures none { first_of self.now.edges 0 ≡ 0 }
        ensures all { first_of self.now.edges self.now.states ≡ length self.now.edges }
    {
        let _count = &self.count;
    }

    /// How many edges there are.
    pub fn len(&self) -> u32
        ensures edges { result ≡ length self.now.edges }
        ensures few { result < 2 ^ 26 }
    {
        self.sources.len() as u32
    }

    /// How many states there are.
    pub fn states(&self) -> u32
        ensures states { result ≡ self.now.states }
    {
        self.count
    }

    /// All labels, in the order of the edges.
    pub fn labels(&self) -> &[A]
        ensures labels { result.now ≡ labels_of self.now.edges }
    {
        self.labels.as_slice()
    }

    /// The labels of the edges from state x, in order.
    pub fn from_state(&self, x: u32) -> &[A]
        requires { x < self.now.states }
        ensures labels { result.now ≡ labels_from self.now.edges x }
        ensures few { length result.now < 2 ^ 26 }
    {
        let from = self.from[x as usize] as usize;
        let to = self.from[x as usize + 1] as usize;
        &self.labels[from..to]
    }

    /// The place in `labels` where the labels from state x begin. So it is the number of the first
    /// edge from x, where x has one.
    pub fn first_from(&self, x: u32) -> u32
        requires { x < self.now.states }
        ensures first { result ≡ first_of self.now.edges x }
        ensures labels { slice_range (labels_of self.now.edges) result
            (result + length (labels_from self.now.edges x))
            ≡ labels_from self.now.edges x }
        ensures targets { slice_range (targets_of self.now.edges) result
            (result + length (targets_from self.now.edges x))
            ≡ targets_from self.now.edges x }
        ensures edges { (e : ℕ) → e < length self.now.edges →
            (slice_index (sources_of self.now.edges) e ≡ x)
            ↔ ((result ≤ e) × (e < result + length (labels_from self.now.edges x))) }
        ensures as_many { length (targets_from self.now.edges x)
            ≡ length (labels_from self.now.edges x) }
        ensures next { first_of self.now.edges (x + 1)
            ≡ result + length (labels_from self.now.edges x) }
        ensures within { result + length (targets_from self.now.edges x) ≤ length self.now.edges }
    {
        self.from[x as usize]
    }

    /// The numbers of the edges into state y, ascending.
    pub fn into_state(&self, y: u32) -> &[u32]
        requires { y < self.now.states }
        ensures edges { result.now ≡ edges_into self.now.edges y }
        ensures exact { AreEdgesInto self.now.edges y result.now }
        ensures few { length result.now < 2 ^ 26 }
    {
        let from = self.into[y as usize] as usize;
        let to = self.into[y as usize + 1] as usize;
        &self.numbers[from..to]
    }

    /// The source of edge e.
    pub fn source(&self, e: u32) -> u32
        requires { e < length self.now.edges }
        ensures source { result ≡ slice_index (sources_of self.now.edges) e }
        ensures in_range { result < self.now.states }
    {
        self.sources[e as usize]
    }

    /// The target of edge e.
    pub fn target(&self, e: u32) -> u32
        requires { e < length self.now.edges }
        ensures target { result ≡ slice_index (targets_of self.now.edges) e }
        ensures in_range { result < self.now.states }
    {
        self.targets[e as usize]
    }

    /// The label of edge e.
    pub fn label(&self, e: u32) -> &A
        requires { e < length self.now.edges }
        ensures label { (d : A) → result.now ≡ slice_index_or (labels_of self.now.edges) e d }
    {
        &self.labels[e as usize]
    }
}
