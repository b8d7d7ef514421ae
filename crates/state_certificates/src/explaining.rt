//! Formulas that tell pairs of states apart, in one list.

ghost use Rattle.std.specs.Prelude.{◌≡◌, ◌<◌, length, map, All, IfOk};
ghost use Rattle.typing.specs.Contents.{content_of};
ghost use Rattle.state_certificates.specs.Certificates.{AreCertificates};
ghost use Rattle.state_certificates.specs.Explained.{numbers_in, answer_of, renewed, IsExplanation};

use formula_builder::{Certificates, cited_formulas_are_old, only_cited};
use formulas::Dag;
use std::alloc::{AllocError, Global};
use typing::Coalgebra;

/// What is told of some pairs of states, ready for print.
#[derive(Debug, Drop)]
pub struct Explanation {
    /// The formulas that are cited for them.
    pub dag: Dag,
    /// For each pair None where its states are equivalent, and else the number of a formula that
    /// holds at the first and fails at the second.
    pub verdicts: Vec<Option<u32>>,
}

/// The formula of the first state of each pair, unless both are in one block.
fn answers(
    alloc: Global,
    told: &Certificates,
    pairs: &[(u32, u32)],
) -> Result<Vec<Option<u32>>, AllocError>
    requires { All (λ pair. (pair.0 < length told.now.block_of)
        × (pair.1 < length told.now.block_of)) pairs.now }
    ensures { IfOk result (λ found. found.items ≡ map (answer_of told.now) pairs.now) }
{
    let mut found = Vec::with_capacity(alloc, pairs.len())?;
    for (i, j) in pairs {
        found.push(told.separating(*i, *j))?;
    }
    Ok(found)
}

/// The numbers that verdicts name.
fn wanted(alloc: Global, verdicts: &[Option<u32>]) -> Result<Vec<u32>, AllocError>
    ensures { IfOk result (λ found. found.items ≡ numbers_in verdicts.now) }
{
    let mut found = Vec::new(alloc);
    for verdict in verdicts {
        if let Some(k) = verdict {
            found.push(*k)?;
        }
    }
    Ok(found)
}

/// Verdicts with new numbers.
fn renew(
    alloc: Global,
    verdicts: &[Option<u32>],
    numbers: &[u32],
) -> Result<Vec<Option<u32>>, AllocError>
    requires { length numbers.now ≡ length (numbers_in verdicts.now) }
    ensures { IfOk result (λ new. new.items ≡ renewed verdicts.now numbers.now) }
{
    let mut new = Vec::with_capacity(alloc, verdicts.len())?;
    let mut next = 0;
    for verdict in verdicts {
        if verdict.is_some() {
            new.push(Some(numbers[next]))?;
            next += 1;
        } else {
            new.push(None)?;
        }
    }
    Ok(new)
}

/// For each pair of states a formula that holds at the first and fails at the second, unless they
/// are equivalent; in one list of what is cited for them. The error is want of memory.
///
/// It takes one step for each pair, and for each formula that is told.
pub fn explain_pairs(
    alloc: Global,
    c: &Coalgebra,
    told: &Certificates,
    pairs: &[(u32, u32)],
) -> Result<Explanation, AllocError>
    requires told { AreCertificates (content_of c.now) told.now }
    requires are_there { All (λ pair. (pair.0 < length c.now.values.items)
        × (pair.1 < length c.now.values.items)) pairs.now }
    ensures { IfOk result (λ e.
        IsExplanation (content_of c.now) pairs.now e.dag e.verdicts.items) }
{
    cited_formulas_are_old();
    let dag = told.dag();
    // The formulas stand in their order.
    dag.is_dag();
    let found = answers(alloc, told, pairs)?;
    let wanted = wanted(alloc, found.as_slice())?;
    let (small, numbers) = only_cited(alloc, dag, wanted.as_slice())?;
    Ok(Explanation {
        dag: small,
        verdicts: renew(alloc, found.as_slice(), numbers.as_slice())?,
    })
}
