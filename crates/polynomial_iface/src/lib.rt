//! The refinement interface of polynomial layers: constants, products, sums, powers and the
//! identity.
//!
//! Shape: a structure has one edge for each place of its form, and the place is the label. Its
//! weight towards a block is the form with a mark for each place that leads into the block.
//! Seen as: the value is the form with a trit for each place, and two structures agree where their
//! forms are equal, and their classes are equal place by place (`specs/Polys.antt`).
//! Steps: one for each label that a call is given. A call looks at each place of the form, since a
//! weight has a mark for each.
#![tactic(auto)]

mod marks;
mod places;
mod polys;
mod weight;

pub use marks::Marks;
pub use places::{MovedMarks, moved_marks, value_at};
pub use polys::Polys;
pub use weight::{Form, PolyShape, PolyWeight};
