// The sum of two interfaces: each structure stands on one side.
ghost use Rattle.std.specs.Prelude.{ℕ};
ghost use Rattle.iface.specs.Sides.{node_of_side, kin_of_sides, fits_on_side, value_of_side};
ghost use Rattle.iface.specs.Sides.{toward_of_side, agree_of_sides};
ghost use Rattle.iface.specs.EitherLaws.{either_laws};

use crate::interface::{Iface, Update};
use crate::side::{Side, left_labels, right_labels};
use modalities::Three;
use outside::Steps;
use std::alloc::{AllocError, Global};
use std::sync::ledger::Ledger;

/// The sum of two interfaces. The labels of a structure stand on the side of its shape.
///
/// Each call is that of this side, with the labels in memory of their own. No step is counted
/// beside those of the side.
#[derive(Clone, Copy, Debug)]
pub struct Either2<I, J> {
    pub left: I,
    pub right: J,
}

impl<I: Iface, J: Iface> Iface for Either2<I, J> {
    type Shape = Side<I::Shape, J::Shape>;

    type Label = Side<I::Label, J::Label>;

    type Weight = Side<I::Weight, J::Weight>;

    ghost node = { λ e. node_of_side (I.node e.left) (J.node e.right) };

    ghost kin = { λ e. kin_of_sides (I.kin e.left) (J.kin e.right) };

    ghost fits = { λ e. fits_on_side (I.fits e.left) (J.fits e.right) };

    ghost value = { λ e. value_of_side (I.value e.left) (J.value e.right) };

    ghost toward = { λ e. toward_of_side (I.toward e.left) (J.toward e.right) };

    ghost agree = { λ e. agree_of_sides (I.agree e.left) (J.agree e.right) };

    fn node(&self, shape: &Side<I::Shape, J::Shape>) -> u32 {
        match shape {
            Side::Left(s) => self.left.node(s),
            Side::Right(s) => self.right.node(s),
        }
    }

    fn init<L: Ledger>(
        &self,
        alloc: Global,
        shape: &Side<I::Shape, J::Shape>,
        labels: &[Side<I::Label, J::Label>],
        steps: &mut Steps<L>,
    ) -> Result<(Side<I::Weight, J::Weight>, Three), AllocError> {
        match shape {
            Side::Left(s) => {
                let own = left_labels(alloc, labels)?;
                let (weight, three) = self.left.init(alloc, s, own.as_slice(), steps)?;
                Ok((Side::Left(weight), three))
            }
            Side::Right(s) => {
                let own = right_labels(alloc, labels)?;
                let (weight, three) = self.right.init(alloc, s, own.as_slice(), steps)?;
                Ok((Side::Right(weight), three))
            }
        }
    }

    fn update<L: Ledger>(
        &self,
        alloc: Global,
        moved: &[Side<I::Label, J::Label>],
        weight: &mut Side<I::Weight, J::Weight>,
        steps: &mut Steps<L>,
    ) -> Result<Update<Side<I::Weight, J::Weight>>, AllocError> {
        match weight {
            Side::Left(w) => {
                let own = left_labels(alloc, moved)?;
                let update = self.left.update(alloc, own.as_slice(), w, steps)?;
                let Update { part, three, void } = update;
                Ok(Update {
                    part: Side::Left(part),
                    three,
                    void,
                })
            }
            Side::Right(w) => {
                let own = right_labels(alloc, moved)?;
                let update = self.right.update(alloc, own.as_slice(), w, steps)?;
                let Update { part, three, void } = update;
                Ok(Update {
                    part: Side::Right(part),
                    three,
                    void,
                })
            }
        }
    }

    ghost laws = { λ e. either_laws
        (I.node e.left) (I.kin e.left) (I.fits e.left) (I.value e.left) (I.agree e.left)
        (J.node e.right) (J.kin e.right) (J.fits e.right) (J.value e.right) (J.agree e.right)
        (I.laws e.left) (J.laws e.right) };
}
