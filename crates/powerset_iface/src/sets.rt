// The interface of finite sets.
ghost use Rattle.std.specs.Prelude.{◌≡◌, ◌+◌, ◌<◌, ◌≤◌, ◌^◌, ℕ, List, length, cond};
ghost use Rattle.powerset_iface.specs.Sets.{value_of_set, toward_of_set, agree_of_sets};
ghost use Rattle.powerset_iface.specs.SetLaws.{set_laws};

use crate::weight::{SetShape, SetWeight};
use iface::{Iface, Update, count_labels};
use modalities::Three;
use outside::Steps;
use std::alloc::{AllocError, Global};
use std::sync::ledger::Ledger;

/// The interface of finite sets. Any number of elements suits a set.
#[derive(Clone, Copy, Debug)]
pub struct Sets;

impl Sets {
    /// The interface.
    pub fn new() -> Sets {
        Sets
    }
}

impl Iface for Sets {
    type Shape = SetShape;

    type Label = ();

    type Weight = SetWeight;

    ghost node = { λ _ shape. shape.node };

    ghost kin = { λ _ _ _. Unit {0} };

    ghost fits = { λ _ _ _. Unit {0} };

    ghost value = { λ _ _ _ trits. value_of_set trits };

    ghost toward = { λ _ _ _ marks. toward_of_set marks };

    ghost agree = { λ _. agree_of_sets };

    fn node(&self, shape: &SetShape) -> u32 {
        shape.node
    }

    fn init<L: Ledger>(
        &self,
        _alloc: Global,
        _shape: &SetShape,
        labels: &[()],
        steps: &mut Steps<L>,
    ) -> Result<(SetWeight, Three), AllocError> {
        count_labels(labels.len(), steps);
        let inside = labels.len() as u32;
        let weight = SetWeight {
            outside: false,
            inside,
        };
        Ok((weight, Three::Members(bits(false, false, 0 < inside))))
    }

    fn update<L: Ledger>(
        &self,
        _alloc: Global,
        moved: &[()],
        weight: &mut SetWeight,
        steps: &mut Steps<L>,
    ) -> Result<Update<SetWeight>, AllocError> {
        count_labels(moved.len(), steps);
        let count = moved.len() as u32;
        let SetWeight { outside, inside } = *weight;
        let rest = inside - count;
        *weight = SetWeight {
            outside: outside | (0 < count),
            inside: rest,
        };
        Ok(Update {
            part: SetWeight {
                outside: outside | (0 < rest),
                inside: count,
            },
            three: Three::Members(bits(outside, 0 < rest, 0 < count)),
            void: Three::Members(bits(outside, 0 < inside, false)),
        })
    }

    ghost laws = { set_laws };
}

/// The bits of a set of numbers 0, 1 and 2, as `Three::Members` has them.
pub fn bits(zero: bool, one: bool, two: bool) -> u8
    ensures { result ≡ cond zero 1 0 + cond one 2 0 + cond two 4 0 }
{
    let low = if zero { 1 } else { 0 };
    let middle = if one { 2 } else { 0 };
    let high = if two { 4 } else { 0 };
    low + middle + high
}
