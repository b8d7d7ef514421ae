// What the refiner asks of a kind of layer, and what holds of every kind.
ghost use Rattle.std.specs.Prelude.{◌≡◌, ◌+◌, ◌<◌, ◌≤◌, ◌^◌, ℕ, Bool, true, List, map, length};
ghost use Rattle.std.specs.Prelude.{IfOk, OnOk, OnErr};
ghost use Rattle.modalities.specs.declared.three.Three.{Three};
ghost use Rattle.iface.specs.Structures.{Classed, IfaceLaws, IsCell, IsUpdated};
ghost use Rattle.iface.specs.Trits.{each};

use modalities::Three;
use outside::Steps;
use std::alloc::{AllocError, Global};
use std::sync::ledger::Ledger;

/// What `update` answers, for a coarse block C and a splitter S within it.
#[derive(Drop)]
pub struct Update<W> {
    /// The weight towards S.
    pub part: W,
    /// The value for 2 on S, 1 on the rest of C and 0 elsewhere.
    pub three: Three,
    /// The value for 1 on C and 0 elsewhere: that of each structure that agrees with this one while
    /// C is one class, and has no edge into S.
    pub void: Three,
}

/// A kind of layer, as a partition refiner sees it.
///
/// A structure has a shape, and an edge with a label to each of its successors. The refiner knows
/// only the weights of structures towards its blocks, and their values over three classes.
///
/// Source: the refinement interface of T. Wißmann, U. Dorsch, S. Milius and L. Schröder, "Efficient
/// and modular coalgebraic partition refinement" (2020). There `init` and `update` are functions of
/// the labels; here each has a meaning over the whole structure as well.
pub trait Iface {
    /// All of a structure but its edges.
    type Shape: Drop;

    /// What stands on an edge.
    type Label: Copy;

    /// What is known of a structure's edges into one block.
    type Weight: Drop;

    /// The functor node of a shape.
    ghost node: { Self → Self.Shape → ℕ };

    /// Two shapes are of one kind.
    ghost kin: { Self → Self.Shape → Self.Shape → Type 0 };

    /// The labels suit the shape.
    ghost fits: { Self → Self.Shape → List Self.Label → Type 0 };

    /// The value of a structure, with a number 0, 1 or 2 for the target of each edge.
    ghost value: { Self → Self.Shape → List Self.Label → List ℕ → Three };

    /// The weight of a structure towards the marked targets.
    ghost toward: { Self → Self.Shape → List Self.Label → List Bool → Self.Weight };

    /// Two structures are equal when each target is replaced by its class.
    ghost agree: { Self → Classed Self.Shape Self.Label → Classed Self.Shape Self.Label → Type 0 };

    /// The functor node of a shape.
    fn node(&self, shape: &Self::Shape) -> u32
        ensures node_is { result ≡ node self.now shape.now };

    /// The weight of a structure towards all states, and its value where each target is 2.
    ///
    /// It counts each label once. There are fewer than 2^26 labels, and at most 2^62 steps before.
    fn init<L: Ledger>(
        &self,
        alloc: Global,
        shape: &Self::Shape,
        labels: &[Self::Label],
        steps: &mut Steps<L>,
    ) -> Result<(Self::Weight, Three), AllocError>
        requires fit { fits self.now shape.now labels.now }
        requires few { length labels.now < 2 ^ 26 }
        requires steps_fit { steps.old ≤ 2 ^ 62 }
        ensures weight { IfOk result (λ r.
            r.0 ≡ toward self.now shape.now labels.now (map (λ _. true) labels.now)) }
        ensures three { IfOk result (λ r.
            r.1 ≡ value self.now shape.now labels.now (each 2 labels.now)) }
        ensures counted { OnOk result (steps.new ≡ steps.old + length labels.now) }
        ensures grows { steps.old ≤ steps.new };

    /// Takes a splitter out of a coarse block.
    ///
    /// `weight` is that of one structure towards the coarse block, and then that towards the block
    /// without the splitter. `moved` has the labels of the structure's edges into the splitter, in
    /// order of their places, and no other label is handed in. It counts each moved label once.
    /// There are fewer than 2^26 of them, and at most 2^62 steps before.
    ///
    /// Without memory the weight is as before.
    fn update<L: Ledger>(
        &self,
        alloc: Global,
        moved: &[Self::Label],
        weight: &mut Self::Weight,
        steps: &mut Steps<L>,
    ) -> Result<Update<Self::Weight>, AllocError>
        requires cell { (shape : Self.Shape) × (labels : List Self.Label) × (trits : List ℕ) ×
            IsCell (fits self.now) (toward self.now) weight.old moved.now shape labels trits }
        requires few { length moved.now < 2 ^ 26 }
        requires steps_fit { steps.old ≤ 2 ^ 62 }
        ensures updated { IfOk result (λ u.
            (shape : Self.Shape) (labels : List Self.Label) (trits : List ℕ) →
            IsCell (fits self.now) (toward self.now) weight.old moved.now shape labels trits →
            IsUpdated (value self.now) (toward self.now) weight.new u.part u.three u.void
            shape labels trits) }
        ensures counted { OnOk result (steps.new ≡ steps.old + length moved.now) }
        ensures grows { steps.old ≤ steps.new }
        ensures unchanged { OnErr result (weight.new ≡ weight.old) };

    /// The laws that no call states.
    ghost laws: { (self : Self) →
        IfaceLaws (node self) (kin self) (fits self) (value self) (agree self) };
}
