//! The first equivalent states, by plain rounds.
ghost use Rattle.std.specs.Prelude.{◌≡◌, ◌+◌, ◌<◌, ◌^◌, List, ℕ, map, length, slice_index, EachIndex, IsTrue, IfOk};
ghost use Rattle.std.specs.List.{list_all, position_or_len};
ghost use Rattle.typing.specs.Values.{states_below};
ghost use Rattle.typing.specs.Bounds.{is_bounded};
ghost use Rattle.typing.specs.Equality.{are_equal as the_are_equal};
ghost use Rattle.typing.specs.Stable.{IsStable, IsFirst, Refines};
ghost use Rattle.plain.specs.Pairs.{first_place};

use crate::equality::are_equal;
use crate::stability::all_relabelled;
use functor_terms::Term;
use std::alloc::{AllocError, Global};
use typing::{Coalgebra, Value};

/// For each state the first state that is equivalent to it.
pub fn first_equivalents(
    alloc: Global,
    term: &Term,
    values: &[Value],
) -> Result<Vec<u32>, AllocError>
    requires few { length values.now < 2 ^ 32 }
    requires within { IsTrue (list_all (states_below (length values.now)) values.now) }
    requires bounded { IsTrue (list_all is_bounded values.now) }
    ensures stable { IfOk result (λ firsts. IsStable term.now values.now firsts.items) }
    ensures coarsest { IfOk result (λ firsts. (s : List ℕ) → IsStable term.now values.now s
        → Refines s firsts.items) }
    ensures first { IfOk result (λ firsts. EachIndex values.now (λ i.
        IsFirst term.now values.now i (slice_index firsts.items i))) }
{
    let mut labels = vec![in alloc; 0u32; values.len()]?;
    loop {
        let new = all_relabelled(alloc, values, labels.as_slice())?;
        let next = first_places(alloc, term, new.as_slice())?;
        if next.as_slice() == labels.as_slice() {
            return Ok(labels);
        }
        labels = next;
    }
}

/// The same for a coalgebra.
pub fn classes_of(alloc: Global, c: &Coalgebra) -> Result<Vec<u32>, AllocError>
    ensures stable { IfOk result (λ firsts. IsStable c.now.term c.now.values.items firsts.items) }
    ensures coarsest { IfOk result (λ firsts. (s : List ℕ) →
        IsStable c.now.term c.now.values.items s → Refines s firsts.items) }
    ensures first { IfOk result (λ firsts. EachIndex c.now.values.items (λ i.
        IsFirst c.now.term c.now.values.items i (slice_index firsts.items i))) }
{
    first_equivalents(alloc, &c.term, c.values.as_slice())
}

/// For each value the place of the first that is equal to it.
fn first_places(alloc: Global, term: &Term, values: &[Value]) -> Result<Vec<u32>, AllocError>
    requires few { length values.now < 2 ^ 32 }
    requires bounded { IsTrue (list_all is_bounded values.now) }
    ensures { IfOk result (λ next. next.items ≡ map (first_place term.now values.now) values.now) }
{
    let mut next = Vec::new(alloc);
    for u in values {
        next.push(place_of(term, values, u))?;
    }
    Ok(next)
}

/// The place of the first value that is equal to u.
fn place_of(term: &Term, values: &[Value], u: &Value) -> u32
    requires few { length values.now < 2 ^ 32 }
    requires bounded { IsTrue (list_all is_bounded values.now) }
    requires one { IsTrue (is_bounded u.now) }
    ensures { result ≡ first_place term.now values.now u.now }
{
    term.is_term();
    let mut place = 0u32;
    for v in values {
        if are_equal(term, 0, v, u) {
            return place;
        }
        place += 1;
    }
    place
}
