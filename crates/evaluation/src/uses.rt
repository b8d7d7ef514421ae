//! Up to which number the row of each formula is used.

ghost use Rattle.std.specs.Prelude.{◌≡◌, ◌≤◌, ◌<◌, ◌^◌, ℕ, length, slice_index, IfOk};
ghost use Rattle.formulas.specs.Formulas.{CitesBelow};
ghost use Rattle.evaluation.specs.Uses.{IsUsedAt, AreLastUses};

use formulas::{Dag, Formula};
use std::alloc::{AllocError, Global};

/// Notes that formula k uses the rows of those that it cites.
fn note_uses(last_uses: &mut [u32], f: &Formula, k: u32)
    requires cites { CitesBelow (length last_uses.old) f.now }
    requires all_before { (i : ℕ) → slice_index last_uses.old i ≤ k }
    ensures used { IsUsedAt last_uses.new k f.now }
    ensures more { (i : ℕ) → slice_index last_uses.old i ≤ slice_index last_uses.new i }
    ensures all_before { (i : ℕ) → slice_index last_uses.new i ≤ k }
{
    match f {
        Formula::True => {}
        Formula::Not(i) => last_uses[*i as usize] = k,
        Formula::And(i, j) => {
            last_uses[*i as usize] = k;
            last_uses[*j as usize] = k;
        }
        Formula::At {
            splitter,
            coarse,
            ..
        } => {
            last_uses[*splitter as usize] = k;
            last_uses[*coarse as usize] = k;
        }
    }
}

/// For each formula the number of the last one that cites it, and the next number if there is none.
pub(crate) fn last_uses(alloc: Global, dag: &Dag) -> Result<Vec<u32>, AllocError>
    ensures { IfOk result (λ v. AreLastUses dag.now (length dag.now) v.items) }
{
    dag.is_dag();
    let mut last_uses = Vec::with_capacity(alloc, dag.len() as usize)?;
    for k in 0..dag.len() {
        note_uses(last_uses.as_mut_slice(), dag.formula(k), k);
        last_uses.push(k + 1)?;
    }
    Ok(last_uses)
}
