//! The classes of states with a formula for each.

ghost use Rattle.std.specs.Prelude.{◌≡◌, ◌<◌, ◌≤◌, ℕ, length, map, slice_index, IfOk};
ghost use Rattle.typing.specs.Contents.{content_of};
ghost use Rattle.state_certificates.specs.Certificates.{formula_of, AreCertificates};
ghost use Rattle.state_certificates.specs.Classed.{IsCertificate};

use crate::grouping::{Groups, grouped};
use formula_builder::{Certificates, cited_formulas_are_old, only_cited};
use formulas::Dag;
use std::alloc::{AllocError, Global};
use typing::Coalgebra;

/// The classes of equivalent states with a formula for each, ready for print.
#[derive(Debug, Drop)]
pub struct Certificate {
    /// The formulas that are cited for them.
    pub dag: Dag,
    /// For each class the number of a formula that holds at its states and fails at all others.
    pub formulas: Vec<u32>,
    /// The classes in the order of their first states, each with its states in order.
    pub blocks: Vec<Vec<u32>>,
}

/// The numbers of the formulas of the first n states.
fn formulas_of(alloc: Global, told: &Certificates, n: u32) -> Result<Vec<u32>, AllocError>
    requires { n ≤ length told.now.block_of }
    ensures one_each { IfOk result (λ found. length found.items ≡ n) }
    ensures of_blocks { IfOk result (λ found. (i : ℕ) → i < n →
        slice_index found.items i ≡ formula_of told.now i) }
{
    let mut found = Vec::with_capacity(alloc, n as usize)?;
    for i in 0..n {
        found.push(told.block_formula(i))?;
    }
    Ok(found)
}

/// The classes of equivalent states, each with a formula that holds at its states and fails at all
/// others; in one list of what is cited for them. The error is want of memory.
///
/// It takes one step for each state, and for each formula that is told.
pub fn certify_classes(
    alloc: Global,
    c: &Coalgebra,
    told: &Certificates,
) -> Result<Certificate, AllocError>
    requires told { AreCertificates (content_of c.now) told.now }
    ensures { IfOk result (λ found. IsCertificate (content_of c.now) found.dag
        found.formulas.items (map (λ v. v.items) found.blocks.items)) }
{
    cited_formulas_are_old();
    let dag = told.dag();
    dag.is_dag();
    // The formulas stand in their order.
    let count = dag.len();
    let keys = formulas_of(alloc, told, c.names.len())?;
    let Groups { keys, places } = grouped(alloc, keys.as_slice(), count)?;
    let (small, formulas) = only_cited(alloc, dag, keys.as_slice())?;
    Ok(Certificate {
        dag: small,
        formulas,
        blocks: places,
    })
}
