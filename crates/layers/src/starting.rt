// The weight towards all states.
ghost use Rattle.std.specs.Prelude.{◌≡◌, ◌<◌, ◌^◌, true, length, map, IfOk};
ghost use Rattle.iface.specs.Trits.{each};
ghost use Rattle.layers.specs.declared.shape.Class.TheVariants as class;
ghost use Rattle.layers.specs.Meanings.{class_at, fits_layer, wide_toward, value_layer};

use crate::layers::Layers;
use crate::marks::{bits_at, has_few_places, value_by_bits};
use crate::shape::Class;
use crate::weight::{MarksWeight, Opened, PlacesWeight, SumsWeight};
use modalities::Three;
use polynomial_iface::{Form, Marks, value_at};
use powerset_iface::{SetWeight, bits};
use std::alloc::{AllocError, Global};
use weights::ratio_of;

impl Layers {
    /// The weight towards all states, and the value where each target is 2.
    pub(crate) fn start(
        &self,
        alloc: Global,
        shape: u32,
        labels: &[u32],
    ) -> Result<(Opened, Three), AllocError>
        requires fit { fits_layer self.now.shapes.items self.now.weights.items shape labels.now }
        requires few { length labels.now < 2 ^ 26 }
        ensures weight { IfOk result (λ r. r.0 ≡ wide_toward self.now.shapes.items
            self.now.weights.items shape labels.now (map (λ _. true) labels.now)) }
        ensures three { IfOk result (λ r. r.1 ≡ value_layer self.now.denominator
            self.now.shapes.items self.now.weights.items shape labels.now (each 2 labels.now)) }
    {
        match self.class(shape) {
            Class::Set => {
                let inside = labels.len() as u32;
                let weight = SetWeight {
                    outside: false,
                    inside,
                };
                let three = Three::Members(bits(false, false, 0 < inside));
                Ok((Opened::Set(weight), three))
            }
            Class::Sums(scaled) => self.sums_start(alloc, shape, scaled, labels),
            Class::Form(form) => self.form_start(alloc, shape, form, labels),
        }
    }

    /// The same of a structure with weights.
    fn sums_start(
        &self,
        alloc: Global,
        shape: u32,
        scaled: bool,
        labels: &[u32],
    ) -> Result<(Opened, Three), AllocError>
        requires class { class_at self.now.shapes.items shape ≡ class.Sums scaled }
        requires fit { fits_layer self.now.shapes.items self.now.weights.items shape labels.now }
        ensures weight { IfOk result (λ r. r.0 ≡ wide_toward self.now.shapes.items
            self.now.weights.items shape labels.now (map (λ _. true) labels.now)) }
        ensures three { IfOk result (λ r. r.1 ≡ value_layer self.now.denominator
            self.now.shapes.items self.now.weights.items shape labels.now (each 2 labels.now)) }
    {
        let inside = self.total_at(labels);
        let over = self.denominator_of(scaled);
        let all = ratio_of(inside, over);
        let none = ratio_of(0, over);
        let three = Three::of_sums(alloc, none, none, all)?;
        let weight = SumsWeight {
            scaled,
            outside: 0,
            inside,
        };
        Ok((Opened::Sums(weight), three))
    }

    /// The same of a polynomial structure.
    fn form_start(
        &self,
        alloc: Global,
        shape: u32,
        form: Form,
        labels: &[u32],
    ) -> Result<(Opened, Three), AllocError>
        requires class { class_at self.now.shapes.items shape ≡ class.Form form }
        requires fit { fits_layer self.now.shapes.items self.now.weights.items shape labels.now }
        ensures weight { IfOk result (λ r. r.0 ≡ wide_toward self.now.shapes.items
            self.now.weights.items shape labels.now (map (λ _. true) labels.now)) }
        ensures three { IfOk result (λ r. r.1 ≡ value_layer self.now.denominator
            self.now.shapes.items self.now.weights.items shape labels.now (each 2 labels.now)) }
    {
        if has_few_places(form) {
            let marks = bits_at(labels);
            let three = value_by_bits(alloc, form, 0, marks)?;
            Ok((Opened::Places(PlacesWeight { shape, marks }), three))
        } else {
            let trits = vec![in alloc; 2; labels.len()]?;
            let marks = vec![in alloc; true; labels.len()]?;
            let weight = MarksWeight {
                shape,
                marks: Marks::from_vec(marks),
            };
            Ok((Opened::Many(weight), value_at(form, trits)))
        }
    }
}
