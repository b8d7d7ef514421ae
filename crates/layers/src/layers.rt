// Tables of shapes and weights.
ghost use Rattle.std.specs.Prelude.{◌≡◌, ◌*◌, ◌≤◌, ◌^◌, pos};
ghost use Rattle.weights.specs.Sums.{size_of};
ghost use Rattle.monoid_iface.specs.Groups.{total};
ghost use Rattle.layers.specs.Nest.{add};
ghost use Rattle.layers.specs.Meanings.{shape_at, form_of, class_at, weight_at, weights_at, over};

use crate::shape::{Class, Kind, LayerShape, class_of_kind};
use polynomial_iface::Form;
use weights::{Group, Monoid, Whole};

/// The interface of all kinds of layers. Shapes and weights are numbers in its tables.
#[derive(Drop)]
pub struct Layers {
    shapes: Vec<LayerShape>,
    weights: Vec<i128>,
    denominator: u64,
    ghost positive: { 1 ≤ denominator },
}

impl Layers {
    /// The interface with these shapes and weights, whose fractions have this denominator.
    pub fn new(shapes: Vec<LayerShape>, weights: Vec<i128>, denominator: u64) -> Layers
        requires positive { 1 ≤ denominator }
        ensures shapes { result.shapes.items ≡ shapes.items }
        ensures weights { result.weights.items ≡ weights.items }
        ensures denominator { result.denominator ≡ denominator }
    {
        Layers {
            shapes,
            weights,
            denominator,
        }
    }

    /// The shape with a number; one that stands for nothing is a set at node 0.
    pub(crate) fn shape(&self, number: u32) -> LayerShape
        ensures { result ≡ shape_at self.now.shapes.items number }
    {
        match self.shapes.get(number as usize) {
            Some(found) => *found,
            None => LayerShape {
                node: 0,
                kind: Kind::Set,
            },
        }
    }

    /// How the weights of the shape with a number are kept.
    pub(crate) fn class(&self, number: u32) -> Class
        ensures { result ≡ class_at self.now.shapes.items number }
    {
        class_of_kind(self.shape(number).kind)
    }

    /// The form of the shape with a number.
    pub(crate) fn form(&self, number: u32) -> Form
        ensures { result ≡ form_of (class_at self.now.shapes.items number) }
    {
        match self.class(number) {
            Class::Set => Form::Constant(0),
            Class::Sums(_) => Form::Constant(0),
            Class::Form(form) => form,
        }
    }

    /// The weight with a number; one that stands for nothing is 0.
    fn weight(&self, number: u32) -> i128
        ensures { result ≡ weight_at self.now.weights.items number }
    {
        match self.weights.get(number as usize) {
            Some(found) => *found,
            None => 0,
        }
    }

    /// The sum of the weights with these numbers.
    pub(crate) fn total_at(&self, labels: &[u32]) -> i128
        requires small { 3 * size_of (λ x. x) (weights_at self.now.weights.items labels.now)
            ≤ 2 ^ 126 }
        ensures sum { result ≡ total (pos 0) add (weights_at self.now.weights.items labels.now) }
    {
        let group = Whole;
        let mut sum = group.zero();
        for i in 0..labels.len() {
            sum = group.add(&sum, &self.weight(labels[i]));
        }
        sum
    }

    /// The denominator of sums.
    pub(crate) fn denominator_of(&self, scaled: bool) -> u64
        ensures is { result ≡ over self.now.denominator scaled }
        ensures positive { 1 ≤ result }
    {
        if scaled { self.denominator } else { 1 }
    }
}
