//! The second pass: each line is cut once, and its tree fitted at once and dropped.
ghost use Rattle.std.specs.Prelude.{◌≡◌, ◌≤◌, ◌^◌, ℕ, List, [], None, Some, length, IfOk, IfErr};
ghost use Rattle.std.specs.List.{AllByRecursion};
ghost use Rattle.file_cut.specs.Lines.{numbered_line};
ghost use Rattle.file_cut.specs.Trees.{SpellsLine};
ghost use Rattle.functor_terms.specs.Terms.{Nodes};
ghost use Rattle.structure_parser.specs.Rows.{row};
ghost use Rattle.structure_parser.specs.Reading.{row_of, rows_in, first_bad, told, told_all, IsReady, IsSound, IsInRange, TellsCut, TellsFault};
ghost use Rattle.structure_parser.specs.Reading.Told.{fine};

use crate::fault::FileFault;
use crate::heads::Heads;
use crate::stage::{Kept, SoFar, Stage, with_row};
use file_cut::{CutFault, Line, LineIter, Tree, cut_line};
use fitting::lists_are_short;
use functor_terms::Term;
use std::alloc::Global;

/// The fitted trees of all rows, and their common denominator.
#[derive(Drop)]
pub(crate) struct Fits {
    pub l: u64,
    pub kept: Vec<Kept>,
}

/// The head and the tree of a line.
fn cut<'a>(alloc: Global, line: Line<'a>) -> Result<(&'a [u8], Tree<'a>), FileFault>
    ensures row { IfOk result (λ found.
        row_of (numbered_line line.entry.number line.entry.text.now)
        ≡ Some (row line.entry.number found.0.now found.1)) }
    ensures spelled { IfOk result (λ found. SpellsLine line.entry.text.now found.0.now found.1) }
    ensures fault { IfErr result (λ fault.
        TellsCut fault (numbered_line line.entry.number line.entry.text.now)) }
{
    match cut_line(alloc, line.text) {
        Ok(found) => Ok(found),
        Err(CutFault::Grammar) => Err(FileFault::Grammar { line: line.number }),
        Err(CutFault::NoMemory) => Err(FileFault::NoMemory),
    }
}

/// What is found of types and bounds, once no row is left.
fn finished(so_far: SoFar) -> Result<Fits, FileFault>
    requires in_range { IsInRange so_far.stage }
    ensures fits { IfOk result (λ fits. (t : Nodes) (names : List (List ℕ)) →
        told t names so_far [] ≡ fine fits.l fits.kept.items) }
    ensures kept { IfOk result (λ fits. fits.kept.items ≡ so_far.kept.items) }
    ensures in_range { IfOk result (λ fits. (1 ≤ fits.l) × (fits.l ≤ 2 ^ 40)) }
    ensures fault { IfErr result (λ fault. (t : Nodes) (names : List (List ℕ)) →
        TellsFault fault None (told t names so_far [])) }
{
    let SoFar { stage, kept, .. } = so_far;
    match stage {
        Stage::Fitting { l } => Ok(Fits { l, kept }),
        Stage::PastBound { line } => Err(FileFault::WeightBound { line }),
        Stage::Misfit { line, kind } => Err(FileFault::TypeFault { line, kind }),
    }
}

/// The fitted trees of all lines, or the first fault but for sums.
pub(crate) fn fitted_rows<'a>(
    alloc: Global,
    term: &Term,
    heads: &Heads,
    lines: LineIter<'a>,
) -> Result<Fits, FileFault>
    requires short { AllByRecursion (λ line. length line.text ≤ 2 ^ 26) lines }
    ensures rows { IfOk result (λ fits. first_bad lines.entry ≡ None) }
    ensures fits { IfOk result (λ fits.
        told_all term.now heads.now.names heads.now.fresh (rows_in lines.entry)
        ≡ fine fits.l fits.kept.items) }
    ensures ready { IfOk result (λ fits.
        AllByRecursion (IsReady term.now (length heads.now.names)) fits.kept.items) }
    ensures in_range { IfOk result (λ fits. (1 ≤ fits.l) × (fits.l ≤ 2 ^ 40)) }
    ensures fault { IfErr result (λ fault. TellsFault fault (first_bad lines.entry)
        (told_all term.now heads.now.names heads.now.fresh (rows_in lines.entry))) }
{
    // lists are no longer than lines
    lists_are_short();
    let mut so_far = SoFar {
        stage: Stage::Fitting { l: 1 },
        fresh: heads.fresh,
        kept: Vec::new(alloc),
    };
    'lines: for line in lines {
        let (_, tree) = cut(alloc, line)?;
        so_far = with_row(alloc, term, &heads.names, so_far, line.number, &tree)?;
    }
    finished(so_far)
}
