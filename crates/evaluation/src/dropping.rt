//! Rows that no later formula uses are dropped.

ghost use Rattle.std.specs.Prelude.{◌≤◌, ◌<◌, length};
ghost use Rattle.formulas.specs.Formulas.{CitesBelow};
ghost use Rattle.evaluation.specs.Uses.{KeepsRows};

use crate::row::Row;
use formulas::Formula;
use std::alloc::Global;

/// Drops the row of formula j if no formula after number k uses it.
fn drop_row(alloc: Global, last_uses: &[u32], k: u32, j: u32, rows: &mut [Row])
    requires there { j < length rows.old }
    requires one_each { length rows.old ≤ length last_uses.now }
    ensures kept { KeepsRows last_uses.now k rows.old rows.new }
{
    if last_uses[j as usize] <= k {
        rows[j as usize] = Row::new(alloc);
    }
}

/// Drops the rows of those that formula k cites, if it is the last that uses them.
fn drop_cited(alloc: Global, last_uses: &[u32], k: u32, f: &Formula, rows: &mut [Row])
    requires cites { CitesBelow k f.now }
    requires there { k < length rows.old }
    requires one_each { length rows.old ≤ length last_uses.now }
    ensures kept { KeepsRows last_uses.now k rows.old rows.new }
{
    match f {
        Formula::True => {}
        Formula::Not(i) => drop_row(alloc, last_uses, k, *i, rows),
        Formula::And(i, j) => {
            drop_row(alloc, last_uses, k, *i, rows);
            drop_row(alloc, last_uses, k, *j, rows);
        }
        Formula::At {
            splitter,
            coarse,
            ..
        } => {
            drop_row(alloc, last_uses, k, *splitter, rows);
            drop_row(alloc, last_uses, k, *coarse, rows);
        }
    }
}

/// Drops the rows that formula k and the one before it need, if no formula after k does.
pub(crate) fn drop_unused(alloc: Global, last_uses: &[u32], k: u32, f: &Formula, rows: &mut [Row])
    requires cites { CitesBelow k f.now }
    requires there { k < length rows.old }
    requires one_each { length rows.old ≤ length last_uses.now }
    ensures kept { KeepsRows last_uses.now k rows.old rows.new }
{
    drop_cited(alloc, last_uses, k, f, rows);
    if k > 0 {
        drop_row(alloc, last_uses, k, k - 1, rows);
    }
}
