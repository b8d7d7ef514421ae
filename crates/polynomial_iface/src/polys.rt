// The interface of polynomial layers.
ghost use Rattle.std.specs.Prelude.{◌≡◌, ◌+◌, ◌<◌, ◌≤◌, ◌^◌, length};
ghost use Rattle.polynomial_iface.specs.Polys.{fits_form, value_of_form, toward_of_form};
ghost use Rattle.polynomial_iface.specs.Polys.{agree_of_forms};
ghost use Rattle.polynomial_iface.specs.PolyLaws.{poly_laws};

use crate::marks::Marks;
use crate::places::{MovedMarks, moved_marks, value_at};
use crate::weight::{PolyShape, PolyWeight};
use iface::{Iface, Update, count_labels};
use modalities::Three;
use outside::Steps;
use std::alloc::{AllocError, Global};
use std::sync::ledger::Ledger;

/// The interface of polynomial layers. The labels of a structure are the places 0, 1, 2 and so on,
/// one for each place of its form.
#[derive(Clone, Copy, Debug)]
pub struct Polys;

impl Polys {
    /// The interface.
    pub fn new() -> Polys {
        Polys
    }
}

impl Iface for Polys {
    type Shape = PolyShape;

    type Label = u32;

    type Weight = PolyWeight;

    ghost node = { λ _ shape. shape.node };

    ghost kin = { λ _ _ _. Unit {0} };

    ghost fits = { λ _ shape labels. fits_form shape.form labels };

    ghost value = { λ _ shape _ trits. value_of_form shape.form trits };

    ghost toward = { λ _ shape _ marks. toward_of_form shape.form marks };

    ghost agree = { λ _. agree_of_forms };

    fn node(&self, shape: &PolyShape) -> u32 {
        shape.node
    }

    fn init<L: Ledger>(
        &self,
        alloc: Global,
        shape: &PolyShape,
        labels: &[u32],
        steps: &mut Steps<L>,
    ) -> Result<(PolyWeight, Three), AllocError> {
        count_labels(labels.len(), steps);
        let trits = vec![in alloc; 2; labels.len()]?;
        let marks = vec![in alloc; true; labels.len()]?;
        let weight = PolyWeight {
            form: shape.form,
            marks: Marks::from_vec(marks),
        };
        Ok((weight, value_at(shape.form, trits)))
    }

    fn update<L: Ledger>(
        &self,
        alloc: Global,
        moved: &[u32],
        weight: &mut PolyWeight,
        steps: &mut Steps<L>,
    ) -> Result<Update<PolyWeight>, AllocError> {
        count_labels(moved.len(), steps);
        let form = weight.form;
        let marks = moved_marks(alloc, form, weight.marks.as_slice(), moved)?;
        let MovedMarks {
            rest,
            part,
            three,
            void,
        } = marks;
        weight.marks = rest;
        Ok(Update {
            part: PolyWeight { form, marks: part },
            three,
            void,
        })
    }

    ghost laws = { poly_laws };
}
