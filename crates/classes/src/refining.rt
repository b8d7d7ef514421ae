//! The sorted states of a coalgebra, and the refiner on them.

ghost use Rattle.std.specs.Prelude.{◌≡◌, ◌+◌, ◌≤◌, ◌^◌, length, IfOk};
ghost use Rattle.typing.specs.Contents.{content_of};
ghost use Rattle.desorting.specs.Desorted.{IsDesorted};
ghost use Rattle.classes.specs.Refined.{IsPacked, IsRefined};
ghost use Rattle.classes.specs.Counted.{IsCounted};

use desorting::{System, desort, sorted_states_are_a_system};
use outside::Steps;
use refiner::{Refined, refine};
use std::alloc::{AllocError, Global};
use std::sync::ledger::Ledger;
use typing::Coalgebra;

/// The sorted states of a coalgebra and their refinement.
#[derive(Drop)]
pub struct Refinement {
    /// The sorted states: those of the structures in the values of the states.
    pub system: System,
    /// Their greatest stable labelling, and how the refiner came to it.
    pub refined: Refined,
}

/// The greatest stable labelling of sorted states, and how the refiner came to it. They are a
/// system, and there are at most 2^61 steps before. The error is want of memory.
fn refined_states<L: Ledger>(
    alloc: Global,
    system: &System,
    steps: &mut Steps<L>,
) -> Result<Refined, AllocError>
    requires system { IsPacked system.now }
    requires steps_fit { steps.old ≤ 2 ^ 61 }
    ensures refined { IfOk result (λ r. IsRefined system.now r) }
    ensures rise { IfOk result (λ r. steps.new ≡ steps.old + r.labels) }
    ensures grows { steps.old ≤ steps.new }
{
    let shapes = system.shapes();
    let store = system.store();
    let refined = refine(alloc, system.iface(), shapes, store, steps)?;
    Ok(refined)
}

/// The sorted states of a coalgebra, refined. There are at most 2^61 steps before. The error is
/// want of memory, and comes also where there would be 2^26 sorted states or edges, as in no file.
pub fn refinement_of<L: Ledger>(
    alloc: Global,
    c: &Coalgebra,
    steps: &mut Steps<L>,
) -> Result<Refinement, AllocError>
    requires steps_fit { steps.old ≤ 2 ^ 61 }
    ensures desorted { IfOk result (λ found.
        IsDesorted c.now.term c.now.values.items c.now.denominator found.system) }
    ensures refined { IfOk result (λ found. IsRefined found.system found.refined) }
    ensures counted { IfOk result (λ found. IsCounted (content_of c.now) found.system.store.states
        (length found.system.store.edges) found.refined.labels) }
    ensures rise { IfOk result (λ found. steps.new ≡ steps.old + found.refined.labels) }
    ensures grows { steps.old ≤ steps.new }
{
    sorted_states_are_a_system();
    c.term.is_term();
    let system = desort(alloc, c)?;
    let store = system.store();
    store.is_stored();
    let refined = refined_states(alloc, &system, steps)?;
    Ok(Refinement { system, refined })
}
