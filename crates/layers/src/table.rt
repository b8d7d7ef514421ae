// Tables of distinct shapes and weights under way.
ghost use Rattle.std.specs.Prelude.{◌≡◌, ◌≤◌, [], slice_get, Some, IfOk, OnOk, OnErr};
ghost use Rattle.layers.specs.Tables.{Keeps};

use crate::layers::Layers;
use crate::shape::{Kind, LayerShape};
use indexmap::IndexSet;
use std::alloc::{AllocError, Global};
use std::marker::Model;

/// Distinct shapes and weights, each numbered from 0 in the order in which they came.
#[derive(Drop)]
pub struct LayerTable {
    shapes: IndexSet<LayerShape>,
    weights: IndexSet<i128>,
}

impl Model for LayerTable {
    ghost use Rattle.layers.specs.Tables.{Tables};

    ghost Value = { Tables };

    ghost view = { λ t. record { shapes = t.shapes.keys; weights = t.weights.keys } };
}

impl LayerTable {
    /// No shapes and no weights.
    pub fn new(alloc: Global) -> LayerTable
        ensures no_shapes { result.shapes ≡ [] }
        ensures no_weights { result.weights ≡ [] }
    {
        LayerTable {
            shapes: IndexSet::new(alloc),
            weights: IndexSet::new(alloc),
        }
    }

    /// The number of a shape. One that has none yet gets the next, of which there are 2^32 - 1;
    /// where these or memory are wanting, nothing changes.
    pub fn shape(&mut self, node: u32, kind: Kind) -> Result<u32, AllocError>
        ensures numbered { IfOk result (λ r.
            slice_get self.new.shapes r ≡ Some (record { node = node; kind = kind })) }
        ensures kept { Keeps self.old.shapes self.new.shapes }
        ensures weights { self.new.weights ≡ self.old.weights }
        ensures unchanged { OnErr result (self.new ≡ self.old) }
    {
        if u32::MAX as usize <= self.shapes.len() {
            return Err(AllocError);
        }
        let (number, _) = self.shapes.insert_full(LayerShape { node, kind })?;
        Ok(number as u32)
    }

    /// The number of a weight. One that has none yet gets the next, of which there are 2^32 - 1;
    /// where these or memory are wanting, nothing changes.
    pub fn weight(&mut self, weight: i128) -> Result<u32, AllocError>
        ensures numbered { IfOk result (λ r. slice_get self.new.weights r ≡ Some weight) }
        ensures kept { Keeps self.old.weights self.new.weights }
        ensures shapes { self.new.shapes ≡ self.old.shapes }
        ensures unchanged { OnErr result (self.new ≡ self.old) }
    {
        if u32::MAX as usize <= self.weights.len() {
            return Err(AllocError);
        }
        let (number, _) = self.weights.insert_full(weight)?;
        Ok(number as u32)
    }

    /// The interface of these shapes and weights, whose fractions have this denominator.
    pub fn finish(self, alloc: Global, denominator: u64) -> Result<Layers, AllocError>
        requires positive { 1 ≤ denominator }
        ensures shapes { IfOk result (λ l. l.shapes.items ≡ self.shapes) }
        ensures weights { IfOk result (λ l. l.weights.items ≡ self.weights) }
        ensures denominator { IfOk result (λ l. l.denominator ≡ denominator) }
    {
        let shapes = Vec::from_slice(alloc, self.shapes.as_slice())?;
        let weights = Vec::from_slice(alloc, self.weights.as_slice())?;
        Ok(Layers::new(shapes, weights, denominator))
    }
}
