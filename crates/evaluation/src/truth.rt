//! The truths of one formula, by the rows of those that it cites.

ghost use Rattle.std.specs.Prelude.{◌≡◌, ◌≤◌, ◌<◌, ◌+◌, ◌==◌, ◌&&◌, ℕ, length, slice_get, slice_index, slice_range, Some, IfOk};
ghost use Rattle.functor_terms.specs.Terms.{node_at};
ghost use Rattle.typing.specs.Layers.{Place};
ghost use Rattle.structures.specs.Structures.{sources_from};
ghost use Rattle.edge_store.specs.Edges.{chosen};
ghost use Rattle.formulas.specs.Truth.{is_value, trit};
ghost use Rattle.formula_checker.specs.LayerValues.{layer_value};
ghost use Rattle.formulas.specs.Formulas.{CitesBelow};
ghost use Rattle.evaluation.specs.Truths.{truth_at, row_at, truth_in};
ghost use Rattle.evaluation.specs.Rows.{AreLaidOut, edge_trits, trits_of, truth_by};

use crate::edges::LaidOut;
use crate::layer::has_value;
use crate::row::Row;
use formulas::Formula;
use modalities::Three;
use std::alloc::{AllocError, Global};
use typing::Coalgebra;

/// 2 where both formulas hold, 1 where the coarse one alone does, 0 elsewhere.
fn trit(splitter: bool, coarse: bool) -> u8
    ensures { result ≡ trit splitter coarse }
{
    if coarse {
        if splitter { 2 } else { 1 }
    } else {
        0
    }
}

/// For each edge the trit of the structure to which it leads.
fn edge_trits(
    alloc: Global,
    splitter: &Row,
    coarse: &Row,
    targets: &[u32],
) -> Result<Vec<u8>, AllocError>
    ensures { IfOk result (λ v. v.items ≡ edge_trits splitter.now coarse.now targets.now) }
{
    targets
        .iter()
        .map(|y| trit(splitter.truth(*y as usize), coarse.truth(*y as usize)))
        .collect(alloc)
}

/// The trits by which a modality holds. There are none for other formulas.
fn trits_of(
    alloc: Global,
    rows: &[Row],
    targets: &[u32],
    f: &Formula,
) -> Result<Vec<u8>, AllocError>
    requires cites { CitesBelow (length rows.now) f.now }
    ensures { IfOk result (λ v. v.items ≡ trits_of rows.now targets.now f.now) }
{
    match f {
        Formula::At {
            splitter,
            coarse,
            ..
        } => edge_trits(
            alloc,
            &rows[*splitter as usize],
            &rows[*coarse as usize],
            targets,
        ),
        Formula::True => Ok(Vec::new(alloc)),
        Formula::Not(_) => Ok(Vec::new(alloc)),
        Formula::And(_, _) => Ok(Vec::new(alloc)),
    }
}

/// The truth of formula i at structure x.
fn truth_of(rows: &[Row], i: u32, x: usize) -> bool
    requires { i < length rows.now }
    ensures { result ≡ truth_in rows.now i x }
{
    rows[i as usize].truth(x)
}

/// The trits of the edges of structure x.
fn trits_from<'t>(firsts: &[u32], trits: &'t [u8], x: usize) -> &'t [u8]
    requires inside { x + 1 < length firsts.now }
    requires rises { slice_index firsts.now x ≤ slice_index firsts.now (x + 1) }
    requires ends { slice_index firsts.now (x + 1) ≤ length trits.now }
    ensures { result.now
        ≡ slice_range trits.now (slice_index firsts.now x) (slice_index firsts.now (x + 1)) }
{
    let from = firsts[x] as usize;
    let to = firsts[x + 1] as usize;
    &trits[from..to]
}

/// Structure x is at a node, and its layer has a value, where edges have trits.
fn has_modality(
    c: &Coalgebra,
    structures: &LaidOut,
    trits: &[u8],
    node: u32,
    value: &Three,
    x: usize,
) -> bool
    requires laid_out { AreLaidOut c.now.term c.now.values.items structures.now.places
        structures.now.firsts.items structures.now.targets.items }
    requires inside { x < length structures.now.places }
    requires one_each { length trits.now ≡ length structures.now.targets.items }
    ensures { (p : Place) → slice_get structures.now.places x ≡ Some p →
        result ≡ ((p.0 == node)
        && is_value (layer_value c.now.denominator (node_at c.now.term p.0) p.1
        (chosen x (sources_from c.now.term 0 structures.now.places) trits.now)) value.now) }
{
    let (p, structure) = structures.places.get(x);
    p == node
        && has_value(
            &c.term,
            c.denominator,
            p,
            structure,
            trits_from(structures.firsts.as_slice(), trits, x),
            value,
        )
}

/// The truth of a formula at structure x.
fn truth_at(
    c: &Coalgebra,
    structures: &LaidOut,
    rows: &[Row],
    trits: &[u8],
    f: &Formula,
    x: usize,
) -> bool
    requires laid_out { AreLaidOut c.now.term c.now.values.items structures.now.places
        structures.now.firsts.items structures.now.targets.items }
    requires inside { x < length structures.now.places }
    requires cites { CitesBelow (length rows.now) f.now }
    requires trits { trits.now ≡ trits_of rows.now structures.now.targets.items f.now }
    ensures { (p : Place) → slice_get structures.now.places x ≡ Some p →
        result ≡ truth_by c.now.term c.now.denominator
        (sources_from c.now.term 0 structures.now.places) rows.now trits.now f.now x p }
{
    match f {
        Formula::True => true,
        Formula::Not(i) => !truth_of(rows, *i, x),
        Formula::And(i, j) => truth_of(rows, *i, x) && truth_of(rows, *j, x),
        Formula::At { node, value, .. } => has_modality(c, structures, trits, *node, value, x),
    }
}

/// The row of a formula, by the rows of those that it cites.
pub(crate) fn row_of(
    alloc: Global,
    c: &Coalgebra,
    structures: &LaidOut,
    rows: &[Row],
    f: &Formula,
) -> Result<Row, AllocError>
    requires laid_out { AreLaidOut c.now.term c.now.values.items structures.now.places
        structures.now.firsts.items structures.now.targets.items }
    requires cites { CitesBelow (length rows.now) f.now }
    ensures { IfOk result (λ row. (x : ℕ) (p : Place) →
        slice_get structures.now.places x ≡ Some p →
        truth_at row x ≡ truth_by c.now.term c.now.denominator
        (sources_from c.now.term 0 structures.now.places) rows.now
        (trits_of rows.now structures.now.targets.items f.now) f.now x p) }
{
    let trits = trits_of(alloc, rows, structures.targets.as_slice(), f)?;
    let mut row = Row::with_capacity(alloc, structures.places.len())?;
    for x in 0..structures.places.len() {
        row.push(truth_at(c, structures, rows, trits.as_slice(), f, x))?;
    }
    Ok(row)
}
