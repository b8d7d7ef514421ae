//! The fitted trees scaled to their common denominator, in line order.
ghost use Rattle.std.specs.Prelude.{◌≡◌, ◌≤◌, ◌^◌, None, length, slice_index, EachIndex, IfOk, IfErr};
ghost use Rattle.std.specs.List.{AllByRecursion, AllZip};
ghost use Rattle.structure_parser.specs.Reading.{IsReady, IsValueOf, TellsSum, short_line, short_kept, kept as the_kept};

use crate::fault::FileFault;
use crate::stage::Kept;
use fitting::{ScaleFault, scale};
use functor_terms::Term;
use std::alloc::Global;
use typing::Value;

/// The value of a fitted tree, or the fault of its line.
fn value_of(
    alloc: Global,
    term: &Term,
    own: &[u32],
    l: u64,
    kept: &Kept,
) -> Result<Value, FileFault>
    requires own { EachIndex own.now (λ i. slice_index own.now i ≡ i) }
    requires ready { IsReady term.now (length own.now) kept.now }
    requires bounded { l ≤ 2 ^ 40 }
    ensures value { IfOk result (IsValueOf term.now l (length own.now) kept.now) }
    ensures sums { IfOk result (λ _. short_line l term.now kept.now ≡ None) }
    ensures fault { IfErr result (λ fault. TellsSum fault (short_line l term.now kept.now)) }
{
    match scale(alloc, term, own, l, &kept.fitted) {
        Ok(value) => Ok(value),
        Err(ScaleFault::BadSum) => Err(FileFault::SumFault { line: kept.line }),
        Err(ScaleFault::NoMemory) => Err(FileFault::NoMemory),
    }
}

/// The values of fitted trees, or the first whose sums are short. A tree is dropped when its value
/// is made.
pub(crate) fn values_of(
    alloc: Global,
    term: &Term,
    own: &[u32],
    l: u64,
    kept: Vec<Kept>,
) -> Result<Vec<Value>, FileFault>
    requires own { EachIndex own.now (λ i. slice_index own.now i ≡ i) }
    requires ready { AllByRecursion (IsReady term.now (length own.now)) kept.items }
    requires bounded { l ≤ 2 ^ 40 }
    ensures values { IfOk result (λ values.
        AllZip (IsValueOf term.now l (length own.now)) kept.items values.items) }
    ensures sums { IfOk result (λ _. short_kept l term.now kept.items ≡ None) }
    ensures fault { IfErr result (λ fault. TellsSum fault (short_kept l term.now kept.items)) }
{
    let mut values = Vec::with_capacity(alloc, kept.len())?;
    let mut left = kept.into_iter();
    while let Some(first) = left.next() {
        values.push(value_of(alloc, term, own, l, &first)?)?;
    }
    Ok(values)
}
