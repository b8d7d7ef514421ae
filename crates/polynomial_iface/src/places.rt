// The trits, marks and value of the places of one structure.
ghost use Rattle.std.specs.Prelude.{◌≡◌, ◌+◌, ◌<◌, ◌≤◌, ◌==◌, List, IfOk, length, map, min, drop, cond};
ghost use Rattle.polynomial_iface.specs.Polys.{arity, value_of_form};
ghost use Rattle.polynomial_iface.specs.Places.{trits_from, mark_trit, head_is};

use crate::marks::Marks;
use crate::weight::Form;
use modalities::{Three, TritList};
use std::alloc::{AllocError, Global};

/// What becomes of marked places, where some of them move.
#[derive(Drop)]
pub struct MovedMarks {
    /// The marked places that stay.
    pub rest: Marks,
    /// Those that move.
    pub part: Marks,
    /// The value for 2 at the moved places, 1 at the other marked ones and 0 elsewhere.
    pub three: Three,
    /// The value for 1 at all marked places and 0 elsewhere.
    pub void: Three,
}

impl Form {
    /// The number of places.
    pub fn places(&self) -> u32
        ensures { result ≡ arity self.now }
    {
        match self {
            Form::Constant(_) => 0,
            Form::Identity => 1,
            Form::Places(count) => *count,
            Form::Tagged(_) => 1,
        }
    }
}

/// Takes ascending places out of the marked ones of a form.
pub fn moved_marks(
    alloc: Global,
    form: Form,
    marks: &[bool],
    moved: &[u32],
) -> Result<MovedMarks, AllocError>
    requires one_each { length marks.now ≡ arity form }
    ensures rest { IfOk result (λ m.
        m.rest ≡ map (λ t. t == 1) (trits_from marks.now 0 moved.now)) }
    ensures part { IfOk result (λ m.
        m.part ≡ map (λ t. t == 2) (trits_from marks.now 0 moved.now)) }
    ensures three { IfOk result (λ m.
        m.three ≡ value_of_form form (trits_from marks.now 0 moved.now)) }
    ensures void { IfOk result (λ m.
        m.void ≡ value_of_form form (map (λ t. min 1 t) (trits_from marks.now 0 moved.now))) }
{
    let trits = place_trits(alloc, marks, moved)?;
    let without = without_two(alloc, trits.as_slice())?;
    let part = marks_of(alloc, trits.as_slice(), 2)?;
    let rest = marks_of(alloc, trits.as_slice(), 1)?;
    Ok(MovedMarks {
        rest: Marks::from_vec(rest),
        part: Marks::from_vec(part),
        three: value_at(form, trits),
        void: value_at(form, without),
    })
}

/// The trits that marks and ascending moved places make: 2 at a moved place, else 1 where marked.
fn place_trits(alloc: Global, marks: &[bool], moved: &[u32]) -> Result<Vec<u8>, AllocError>
    ensures { IfOk result (λ v. v.items ≡ trits_from marks.now 0 moved.now) }
{
    let mut trits = Vec::with_capacity(alloc, marks.len())?;
    let mut next = 0;
    for (i, mark) in marks.iter().enumerate() {
        let here = is_next(moved, next, i);
        trits.push(trit_at(here, *mark))?;
        next += one_if(here);
    }
    Ok(trits)
}

/// The next moved place is this one.
fn is_next(moved: &[u32], next: usize, at: usize) -> bool
    ensures { result ≡ head_is at (drop next moved.now) }
{
    if next < moved.len() {
        moved[next] as usize == at
    } else {
        false
    }
}

fn trit_at(here: bool, mark: bool) -> u8
    ensures { result ≡ cond here 2 (mark_trit mark) }
{
    if here {
        2
    } else if mark {
        1
    } else {
        0
    }
}

fn one_if(here: bool) -> usize
    ensures { result ≡ cond here 1 0 }
{
    if here { 1 } else { 0 }
}

/// Where a trit stands.
fn marks_of(alloc: Global, trits: &[u8], trit: u8) -> Result<Vec<bool>, AllocError>
    ensures { IfOk result (λ v. v.items ≡ map (λ t. t == trit) trits.now) }
{
    trits.iter().map(|t| *t == trit).collect(alloc)
}

/// The trits with 1 in place of 2.
fn without_two(alloc: Global, trits: &[u8]) -> Result<Vec<u8>, AllocError>
    ensures { IfOk result (λ v. v.items ≡ map (λ t. min 1 t) trits.now) }
{
    trits.iter().map(|t| (*t).min(1)).collect(alloc)
}

/// The value of a form with a trit at each place.
pub fn value_at(form: Form, trits: Vec<u8>) -> Three
    requires { length trits.items ≡ arity form }
    ensures { result ≡ value_of_form form trits.items }
{
    match form {
        Form::Constant(label) => Three::Label(label),
        Form::Identity => Three::Trit(trits[0]),
        Form::Places(_) => Three::Trits(TritList::from_vec(trits)),
        Form::Tagged(index) => Three::Tagged(index, trits[0]),
    }
}
