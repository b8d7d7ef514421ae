//! The classes of equivalent states, read from the refinement of the sorted states.

ghost use Rattle.std.specs.Prelude.{◌≡◌, ◌+◌, ◌≤◌, ◌^◌, ℕ, List, slice_index, EachIndex, IfOk};
ghost use Rattle.typing.specs.Stable.{IsStable, IsFirst, Refines};
ghost use Rattle.typing.specs.Contents.{content_of};
ghost use Rattle.desorting.specs.Desorted.{IsDesorted};
ghost use Rattle.classes.specs.Refined.{IsRefined};
ghost use Rattle.classes.specs.Counted.{IsCounted};

use crate::firsts::first_places;
use crate::refining::{Refinement, refinement_of};
use desorting::{greatest_is_equivalence, stable_labellings_give_stable_lists};
use outside::Steps;
use std::alloc::{AllocError, Global};
use std::sync::ledger::Ledger;
use typing::Coalgebra;

/// The classes of the states of a coalgebra, and what it took to find them.
#[derive(Debug, Drop)]
pub struct Equivalents {
    /// For each state the first state that is equivalent to it.
    pub firsts: Vec<u32>,
    /// How many sorted states there were.
    pub sorted: u32,
    /// How many edges between them.
    pub edges: u32,
    /// How many steps were counted.
    pub labels: u64,
}

/// For each state the first state that is equivalent to it, by the refinement of the sorted states
/// of the coalgebra. The error is want of memory.
pub fn firsts_of(
    alloc: Global,
    c: &Coalgebra,
    refinement: &Refinement,
) -> Result<Vec<u32>, AllocError>
    requires desorted { IsDesorted c.now.term c.now.values.items c.now.denominator
        refinement.now.system }
    requires refined { IsRefined refinement.now.system refinement.now.refined }
    ensures stable { IfOk result (λ firsts.
        IsStable c.now.term c.now.values.items firsts.items) }
    ensures coarsest { IfOk result (λ firsts. (s : List ℕ) →
        IsStable c.now.term c.now.values.items s
        → Refines s firsts.items) }
    ensures first { IfOk result (λ firsts. EachIndex c.now.values.items (λ i.
        IsFirst c.now.term c.now.values.items i (slice_index firsts.items i))) }
{
    greatest_is_equivalence();
    stable_labellings_give_stable_lists();
    c.term.is_term();
    let n = c.names.len();
    let refined = &refinement.refined;
    let firsts = first_places(alloc, refined.block_of(), refined.blocks(), n)?;
    Ok(firsts)
}

/// For each state the first state that is equivalent to it, with the sizes of the system that was
/// refined. There are at most 2^61 steps before. The error is want of memory, and comes also where
/// there would be 2^26 sorted states or edges, as in no file.
pub fn first_equivalents<L: Ledger>(
    alloc: Global,
    c: &Coalgebra,
    steps: &mut Steps<L>,
) -> Result<Equivalents, AllocError>
    requires steps_fit { steps.old ≤ 2 ^ 61 }
    ensures stable { IfOk result (λ found.
        IsStable c.now.term c.now.values.items found.firsts.items) }
    ensures coarsest { IfOk result (λ found. (s : List ℕ) →
        IsStable c.now.term c.now.values.items s
        → Refines s found.firsts.items) }
    ensures first { IfOk result (λ found. EachIndex c.now.values.items (λ i.
        IsFirst c.now.term c.now.values.items i (slice_index found.firsts.items i))) }
    ensures counted { IfOk result (λ found.
        IsCounted (content_of c.now) found.sorted found.edges found.labels) }
    ensures rise { IfOk result (λ found. steps.new ≡ steps.old + found.labels) }
    ensures grows { steps.old ≤ steps.new }
{
    let found = refinement_of(alloc, c, steps)?;
    let firsts = firsts_of(alloc, c, &found)?;
    let store = found.system.store();
    Ok(Equivalents {
        firsts,
        sorted: found.system.sorted(),
        edges: store.len(),
        labels: found.refined.labels(),
    })
}
