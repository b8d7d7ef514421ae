// A splitter is taken out of a coarse block.
ghost use Rattle.std.specs.Prelude.{◌<◌, ◌^◌, length, IfOk};
ghost use Rattle.layers.specs.declared.weight.Opened.TheVariants as opened;
ghost use Rattle.layers.specs.Meanings.{HasCell, Moves};

use crate::layers::Layers;
use crate::marks::{bits_at, value_by_bits};
use crate::weight::{MarksWeight, Opened, PlacesWeight, SumsWeight};
use modalities::Three;
use polynomial_iface::{MovedMarks, moved_marks};
use powerset_iface::{SetWeight, bits};
use std::alloc::{AllocError, Global};
use weights::{Group, Monoid, Whole, ratio_of};

/// What becomes of a weight.
#[derive(Drop)]
pub(crate) struct Moved {
    /// The weight towards the coarse block without the splitter.
    pub rest: Opened,
    /// The weight towards the splitter.
    pub part: Opened,
    /// The value for 2 on the splitter, 1 on the rest of the coarse block and 0 elsewhere.
    pub three: Three,
    /// The value for 1 on the coarse block and 0 elsewhere.
    pub void: Three,
}

impl Layers {
    /// Takes a splitter out of a coarse block.
    pub(crate) fn moved_out(
        &self,
        alloc: Global,
        moved: &[u32],
        weight: Opened,
    ) -> Result<Moved, AllocError>
        requires few { length moved.now < 2 ^ 26 }
        requires cell { HasCell self.now.shapes.items self.now.weights.items
            weight moved.now }
        ensures updated { IfOk result (λ m. Moves self.now.denominator
            self.now.shapes.items self.now.weights.items (weight) moved.now
            m.rest m.part m.three m.void) }
    {
        match weight {
            Opened::Set(set) => Ok(self.set_moved(moved, set)),
            Opened::Places(places) => self.places_moved(alloc, moved, places),
            Opened::Many(places) => self.marks_moved(alloc, moved, places),
            Opened::Sums(sums) => self.sums_moved(alloc, moved, sums),
        }
    }

    /// The same of a set.
    fn set_moved(&self, moved: &[u32], set: SetWeight) -> Moved
        requires few { length moved.now < 2 ^ 26 }
        requires cell { HasCell self.now.shapes.items self.now.weights.items
            (opened.Set set) moved.now }
        ensures updated { Moves self.now.denominator
            self.now.shapes.items self.now.weights.items (opened.Set set) moved.now
            result.rest result.part result.three result.void }
    {
        let count = moved.len() as u32;
        let SetWeight { outside, inside } = set;
        let rest = inside - count;
        Moved {
            rest: Opened::Set(SetWeight {
                outside: outside | (0 < count),
                inside: rest,
            }),
            part: Opened::Set(SetWeight {
                outside: outside | (0 < rest),
                inside: count,
            }),
            three: Three::Members(bits(outside, 0 < rest, 0 < count)),
            void: Three::Members(bits(outside, 0 < inside, false)),
        }
    }

    /// The same of a structure with weights.
    fn sums_moved(
        &self,
        alloc: Global,
        moved: &[u32],
        sums: SumsWeight,
    ) -> Result<Moved, AllocError>
        requires cell { HasCell self.now.shapes.items self.now.weights.items
            (opened.Sums sums) moved.now }
        ensures updated { IfOk result (λ m. Moves self.now.denominator
            self.now.shapes.items self.now.weights.items (opened.Sums sums) moved.now
            m.rest m.part m.three m.void) }
    {
        let SumsWeight {
            scaled,
            outside,
            inside,
        } = sums;
        let group = Whole;
        let part = self.total_at(moved);
        let rest = group.sub(&inside, &part);
        let other = group.add(&outside, &part);
        let others = group.add(&outside, &rest);
        let over = self.denominator_of(scaled);
        let away = ratio_of(outside, over);
        let three = Three::of_sums(alloc, away, ratio_of(rest, over), ratio_of(part, over))?;
        let void = Three::of_sums(alloc, away, ratio_of(inside, over), ratio_of(0, over))?;
        Ok(Moved {
            rest: Opened::Sums(SumsWeight {
                scaled,
                outside: other,
                inside: rest,
            }),
            part: Opened::Sums(SumsWeight {
                scaled,
                outside: others,
                inside: part,
            }),
            three,
            void,
        })
    }

    /// The same of a structure with at most 64 places.
    fn places_moved(
        &self,
        alloc: Global,
        moved: &[u32],
        places: PlacesWeight,
    ) -> Result<Moved, AllocError>
        requires cell { HasCell self.now.shapes.items self.now.weights.items
            (opened.Places places) moved.now }
        ensures updated { IfOk result (λ m. Moves self.now.denominator
            self.now.shapes.items self.now.weights.items (opened.Places places) moved.now
            m.rest m.part m.three m.void) }
    {
        let PlacesWeight { shape, marks } = places;
        let form = self.form(shape);
        let part = bits_at(moved);
        let rest = marks - part;
        let three = value_by_bits(alloc, form, rest, part)?;
        let void = value_by_bits(alloc, form, marks, 0)?;
        Ok(Moved {
            rest: Opened::Places(PlacesWeight { shape, marks: rest }),
            part: Opened::Places(PlacesWeight { shape, marks: part }),
            three,
            void,
        })
    }

    /// The same of a structure with more places.
    fn marks_moved(
        &self,
        alloc: Global,
        moved: &[u32],
        places: MarksWeight,
    ) -> Result<Moved, AllocError>
        requires cell { HasCell self.now.shapes.items self.now.weights.items
            (opened.Many places) moved.now }
        ensures updated { IfOk result (λ m. Moves self.now.denominator
            self.now.shapes.items self.now.weights.items (opened.Many places) moved.now
            m.rest m.part m.three m.void) }
    {
        let shape = places.shape;
        let form = self.form(shape);
        let marks = moved_marks(alloc, form, places.marks.as_slice(), moved)?;
        let MovedMarks {
            rest,
            part,
            three,
            void,
        } = marks;
        Ok(Moved {
            rest: Opened::Many(MarksWeight { shape, marks: rest }),
            part: Opened::Many(MarksWeight { shape, marks: part }),
            three,
            void,
        })
    }
}
