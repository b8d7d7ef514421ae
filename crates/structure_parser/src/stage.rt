//! How far the rows of a file have come.
//!
//! Shape: a row is fitted at once, and its tree is not kept. So what is found of types and bounds
//! is carried on from row to row: a misfit, also on a later line, stands before a bound that was
//! passed, and the first of each decides.
ghost use Rattle.std.specs.Prelude.{◌≡◌, ◌==◌, ◌≤◌, ◌^◌, ℕ, List, ◌∷◌, length, Ok, Err, IfOk, IfSome, IsTrue};
ghost use Rattle.file_cut.specs.declared.tree.Tree.{Tree as TheTree};
ghost use Rattle.functor_terms.specs.Terms.{Nodes};
ghost use Rattle.fitting.specs.Fitting.{Gives};
ghost use Rattle.fitting.specs.Scaling.{are_numerals, lists_within, IsFitted};
ghost use Rattle.structure_parser.specs.Rows.{Row, row};
ghost use Rattle.structure_parser.specs.Stages.{joined_with};
ghost use Rattle.structure_parser.specs.Reading.{row_fit, told, IsInRange, IsNoMisfit, IsSound, IsShort, TellsOn};

use file_cut::Tree;
use fitting::{FitFault, Fitted, fit};
use functor_terms::Term;
use std::alloc::{AllocError, Global};
use typing::{Names, TypeKind};

/// A fitted tree, and the number of its line.
#[derive(Debug, Drop)]
pub struct Kept {
    pub line: u32,
    pub fitted: Fitted,
}

/// What the rows so far say.
#[derive(Clone, Copy, Debug)]
pub enum Stage {
    /// All fit, within all bounds, and l is their common denominator.
    Fitting { l: u64 },
    /// All fit, and the line is the first at which a bound is passed.
    PastBound { line: u32 },
    /// The line is the first that does not fit.
    Misfit { line: u32, kind: TypeKind },
}

/// What is known of the rows so far.
#[derive(Drop)]
pub struct SoFar {
    pub stage: Stage,
    /// How many of the next rows have new heads.
    pub fresh: u32,
    /// The fitted trees, as long as no fault is found.
    pub kept: Vec<Kept>,
}

/// What the tree of a row denotes, or its misfit.
fn fit_row(
    alloc: Global,
    term: &Term,
    names: &Names,
    repeated: bool,
    tree: &Tree,
) -> Result<Fitted, FitFault>
    ensures exact { Gives result (row_fit term.now names.now repeated tree.now) }
    ensures numerals { IfOk result (λ fitted. IsTrue (are_numerals fitted)) }
{
    if repeated {
        return Err(FitFault::Misfit(TypeKind::RepeatedState));
    }
    fit(alloc, term, tree, names)
}

/// The common denominator with that of a fitted tree, if no bound is passed.
fn joined(l: u64, fitted: &Fitted) -> Option<u64>
    requires numerals { IsTrue (are_numerals fitted.now) }
    requires in_range { (1 ≤ l) × (l ≤ 2 ^ 40) }
    ensures value { result ≡ joined_with l fitted.now }
    ensures in_range { IfSome result (λ m. (1 ≤ m) × (m ≤ 2 ^ 40)) }
{
    if fitted.over_bound() {
        return None;
    }
    fitted.join_denominators(l)
}

/// One row more, whose tree is fitted.
fn with_fitted(so_far: SoFar, line: u32, fitted: Fitted) -> Result<SoFar, AllocError>
    requires numerals { IsTrue (are_numerals fitted) }
    requires in_range { IsInRange so_far.stage }
    ensures told { IfOk result (TellsOn so_far line (Ok fitted)) }
    ensures sound { IfOk result (λ new. (t : Nodes) (n : ℕ) →
        IsFitted t n fitted → IsTrue (lists_within (2 ^ 26) fitted) →
        IsSound t n so_far → IsSound t n new) }
{
    let SoFar {
        stage,
        fresh,
        mut kept,
    } = so_far;
    let fresh = fresh.saturating_sub(1);
    match stage {
        Stage::Fitting { l } => match joined(l, &fitted) {
            Some(m) => {
                kept.push(Kept { line, fitted })?;
                let stage = Stage::Fitting { l: m };
                Ok(SoFar { stage, fresh, kept })
            }
            None => {
                let stage = Stage::PastBound { line };
                Ok(SoFar { stage, fresh, kept })
            }
        },
        Stage::PastBound { .. } | Stage::Misfit { .. } => Ok(SoFar { stage, fresh, kept }),
    }
}

/// One row more, which does not fit.
fn with_misfit(so_far: SoFar, line: u32, kind: TypeKind) -> SoFar
    requires none_before { IsNoMisfit so_far.stage }
    ensures told { TellsOn so_far line (Err kind) result }
    ensures sound { (t : Nodes) (n : ℕ) → IsSound t n so_far → IsSound t n result }
{
    let SoFar { fresh, kept, .. } = so_far;
    let stage = Stage::Misfit { line, kind };
    SoFar { stage, fresh, kept }
}

/// One row more.
pub(crate) fn with_row(
    alloc: Global,
    term: &Term,
    names: &Names,
    so_far: SoFar,
    line: u32,
    tree: &Tree,
) -> Result<SoFar, AllocError>
    requires short { IsShort term.now names.now tree.now }
    requires sound { IsSound term.now (length names.now) so_far }
    ensures told { IfOk result (λ new. (head : List ℕ) (rest : List Row) →
        told term.now names.now new rest
        ≡ told term.now names.now so_far (row line head tree.now ∷ rest)) }
    ensures sound { IfOk result (IsSound term.now (length names.now)) }
{
    if let Stage::Misfit { .. } = so_far.stage {
        return Ok(so_far);
    }
    match fit_row(alloc, term, names, so_far.fresh == 0, tree) {
        Ok(fitted) => with_fitted(so_far, line, fitted),
        Err(FitFault::Misfit(kind)) => Ok(with_misfit(so_far, line, kind)),
        Err(FitFault::NoMemory) => Err(AllocError),
    }
}
