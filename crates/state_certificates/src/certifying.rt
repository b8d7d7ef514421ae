//! The formulas of the blocks, as those of the states.

ghost use Rattle.std.specs.Prelude.{◌≡◌, ◌+◌, ◌*◌, ◌≤◌, length, All, IfOk};
ghost use Rattle.typing.specs.Contents.{content_of};
ghost use Rattle.classes.specs.Refined.{IsRefined};
ghost use Rattle.desorting.specs.Desorted.{IsDesorted};
ghost use Rattle.formulas.specs.Ranges.{IsWritable};
ghost use Rattle.satisfaction.specs.Modalities.{AllFit};
ghost use Rattle.state_certificates.specs.Certificates.{StatesAreTold, TellApart, FormulasSeparate, HaveForms, AreCertificates};

use desorting::{
    System, greatest_is_equivalence, sorted_states_are_a_system,
    stable_labellings_give_stable_lists, values_are_of_layers,
};
use formula_builder::{Certificates, build};
use refiner::Refined;
use satisfaction::equivalent_states_have_one_truth;
use std::alloc::{AllocError, Global};
use typing::Coalgebra;

/// Formulas of the states of a coalgebra: that of a state holds at exactly the states that are
/// equivalent to it. The system is that of the coalgebra's structures, refined; state i has the
/// sorted state i. The error is want of memory.
pub fn state_formulas(
    alloc: Global,
    c: &Coalgebra,
    system: &System,
    refined: &Refined,
) -> Result<Certificates, AllocError>
    requires desorted { IsDesorted c.now.term c.now.values.items c.now.denominator system.now }
    requires refined { IsRefined system.now refined.now }
    ensures exact { IfOk result (λ told. StatesAreTold (content_of c.now) told) }
    ensures apart { IfOk result (λ told. TellApart (content_of c.now) told) }
    ensures separate { IfOk result (λ _. FormulasSeparate (content_of c.now)) }
    ensures forms { IfOk result (λ told. HaveForms c.now.term told.dag) }
    ensures fit { IfOk result (λ told. AllFit c.now.term told.dag) }
    ensures writable { IfOk result (λ told. All IsWritable told.dag) }
    ensures few { IfOk result (λ told. length told.dag ≤ 6 * system.now.store.states + 1) }
    ensures same_blocks { IfOk result (λ told. told.block_of ≡ refined.now.block_of) }
    ensures certificates { IfOk result (λ told. AreCertificates (content_of c.now) told) }
{
    sorted_states_are_a_system();
    greatest_is_equivalence();
    stable_labellings_give_stable_lists();
    values_are_of_layers();
    equivalent_states_have_one_truth();
    c.term.is_term();
    let shapes = system.shapes();
    let store = system.store();
    let told = build(alloc, system.iface(), shapes, store, refined)?;
    // The formulas stand in their order.
    told.dag().is_dag();
    Ok(told)
}
