//! Formulas that tell two states apart.

ghost use Rattle.std.specs.Prelude.{◌≡◌, ◌↔◌, ◌<◌, ◌≤◌, ◌∷◌, [], length, IfOk, IfSome, IsNone};
ghost use Rattle.typing.specs.Contents.{content_of};
ghost use Rattle.typing.specs.Stable.{AreEquivalent};
ghost use Rattle.satisfaction.specs.Modalities.{AllFit};
ghost use Rattle.formula_builder.specs.Cited.{IsOnlyCited};
ghost use Rattle.state_certificates.specs.Certificates.{StatesAreTold, IsSeparation};

use formula_builder::{Certificates, only_cited};
use formulas::Dag;
use std::alloc::{AllocError, Global};
use typing::Coalgebra;

/// A formula, in a list of those that it cites directly or through others.
#[derive(Debug, Drop)]
pub struct Separation {
    /// The list.
    pub dag: Dag,
    /// The number of the formula.
    pub formula: u32,
}

/// A formula of a list, with what it cites.
fn cut_out(alloc: Global, dag: &Dag, k: u32) -> Result<Separation, AllocError>
    requires { k < length dag.now }
    ensures { IfOk result (λ s. IsOnlyCited dag.now (k ∷ []) s.dag (s.formula ∷ [])) }
{
    let wanted = vec![in alloc; k]?;
    let (small, new) = only_cited(alloc, dag, wanted.as_slice())?;
    Ok(Separation {
        dag: small,
        formula: new[0],
    })
}

/// A formula that holds at state i and fails at state j. None where they are equivalent. The error
/// is want of memory.
pub fn separating_formula(
    alloc: Global,
    c: &Coalgebra,
    told: &Certificates,
    i: u32,
    j: u32,
) -> Result<Option<Separation>, AllocError>
    requires told { StatesAreTold (content_of c.now) told.now }
    requires i_is_there { i < length c.now.values.items }
    requires j_is_there { j < length c.now.values.items }
    requires one_each { length c.now.values.items ≤ length told.now.block_of }
    ensures none { IfOk result (λ found.
        IsNone found ↔ AreEquivalent c.now.term c.now.values.items i j) }
    ensures apart { IfOk result (λ found. IfSome found (λ s.
        IsSeparation (content_of c.now) i j s.dag s.formula)) }
    ensures fit { IfOk result (λ found. IfSome found (λ s.
        AllFit c.now.term told.now.dag → AllFit c.now.term s.dag)) }
{
    let dag = told.dag();
    // The formulas stand in their order.
    dag.is_dag();
    match told.separating(i, j) {
        None => Ok(None),
        Some(k) => Ok(Some(cut_out(alloc, dag, k)?)),
    }
}
