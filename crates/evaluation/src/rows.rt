//! The rows that are still used.

ghost use Rattle.std.specs.Prelude.{◌≡◌, ◌+◌, ◌<◌, ℕ, length, MatchResult};
ghost use Rattle.typing.specs.Contents.{content_of};
ghost use Rattle.evaluation.specs.Rows.{IsEvaluating};

use crate::dropping::drop_unused;
use crate::edges::LaidOut;
use crate::row::Row;
use crate::truth::row_of;
use formulas::Dag;
use std::alloc::{AllocError, Global};
use typing::Coalgebra;

/// Puts the row of the next formula last, and drops those that no later one uses. Where memory is
/// wanting nothing changes.
pub(crate) fn add_row(
    alloc: Global,
    c: &Coalgebra,
    dag: &Dag,
    structures: &LaidOut,
    last_uses: &[u32],
    rows: &mut Vec<Row>,
) -> Result<(), AllocError>
    requires evaluating { IsEvaluating (content_of c.now) dag.now structures.now.places
        structures.now.firsts.items structures.now.targets.items last_uses.now rows.old.items }
    requires left { length rows.old.items < length dag.now }
    ensures added { MatchResult result
        (λ _. (length rows.new.items ≡ length rows.old.items + 1) ×
        IsEvaluating (content_of c.now) dag.now structures.now.places structures.now.firsts.items
        structures.now.targets.items last_uses.now rows.new.items)
        (λ e. rows.new.items ≡ rows.old.items) }
{
    let k = rows.len() as u32;
    let f = dag.formula(k);
    let row = row_of(alloc, c, structures, rows.as_slice(), f)?;
    rows.push(row)?;
    drop_unused(alloc, last_uses, k, f, rows.as_mut_slice());
    Ok(())
}
