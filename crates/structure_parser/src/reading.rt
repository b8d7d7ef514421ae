//! Whole files.
ghost use Rattle.std.specs.Prelude.{◌≡◌, ◌+◌, ◌≤◌, ◌<◌, ◌^◌, None, length, IfOk, IfErr};
ghost use Rattle.std.specs.List.{AllByRecursion, AllZip};
ghost use Rattle.typing.specs.Contents.{content_of};
ghost use Rattle.structure_parser.specs.Rows.{feed_count};
ghost use Rattle.structure_parser.specs.Reads.{Reads, Tells};
ghost use Rattle.structure_parser.specs.Reading.{short_kept, IsReady, IsValueOf, AreRead, TellsSum, TellsRows};

use crate::fault::FileFault;
use crate::heads::first_words;
use crate::rows::{Fits, fitted_rows};
use crate::values::values_of;
use file_cut::{LineIter, lines};
use fitting::own_numbers;
use functor_terms::{Term, TermFault, read_term};
use std::alloc::Global;
use typing::{Coalgebra, Names};

/// The most bytes that a file may have.
const MOST_BYTES: usize = 67_108_864;

/// How many line feeds there are.
fn feeds(bytes: &[u8]) -> u32
    requires { length bytes.now ≤ 2 ^ 26 }
    ensures count { result ≡ feed_count bytes.now }
    ensures few { result ≤ 2 ^ 26 }
{
    bytes.iter().filter(|byte| **byte == b'\n').count() as u32
}

/// The coalgebra of fitted trees, or the first line with a distribution that does not sum to 1.
fn coalgebra_of<'a>(
    alloc: Global,
    term: Term<'a>,
    names: Names<'a>,
    fits: Fits,
) -> Result<Coalgebra<'a>, FileFault>
    requires ready { AllByRecursion (IsReady term (length names)) fits.kept.items }
    requires in_range { (1 ≤ fits.l) × (fits.l ≤ 2 ^ 40) }
    requires one_each { length fits.kept.items ≡ length names }
    ensures term { IfOk result (λ c. c.term ≡ term.entry) }
    ensures names { IfOk result (λ c. c.names ≡ names.entry) }
    ensures denominator { IfOk result (λ c. c.denominator ≡ fits.l) }
    ensures values { IfOk result (λ c.
        AllZip (IsValueOf term.entry fits.l (length names.entry)) fits.kept.items c.values.items) }
    ensures sums { IfOk result (λ _. short_kept fits.l term.entry fits.kept.items ≡ None) }
    ensures fault { IfErr result (λ fault.
        TellsSum fault (short_kept fits.l term.entry fits.kept.items)) }
{
    names.are_names();
    let own = own_numbers(alloc, names.len())?;
    let Fits { l, kept } = fits;
    let values = values_of(alloc, &term, own.as_slice(), l, kept)?;
    Ok(Coalgebra {
        term,
        names,
        denominator: l,
        values,
    })
}

/// The coalgebra that the lines behind the functor line denote, or their first fault. They are
/// taken twice: for their first words, and for all that they say.
fn read_lines<'a>(
    alloc: Global,
    term: Term<'a>,
    first: LineIter<'a>,
    second: LineIter<'a>,
) -> Result<Coalgebra<'a>, FileFault>
    requires same { second ≡ first }
    requires few { length first + 1 < 2 ^ 32 }
    requires short { AllByRecursion (λ line. length line.text ≤ 2 ^ 26) first }
    ensures read { IfOk result (λ c. AreRead term.entry first.entry (content_of c)) }
    ensures fault { IfErr result (TellsRows term.entry first.entry) }
{
    let heads = first_words(alloc, first)?;
    let fits = match fitted_rows(alloc, &term, &heads, second) {
        Ok(fits) => fits,
        Err(fault) => return Err(fault),
    };
    match coalgebra_of(alloc, term, heads.names, fits) {
        Ok(c) => Ok(c),
        Err(fault) => Err(fault),
    }
}

/// The coalgebra that a file denotes, or its first fault. A file has at most 67,108,864 bytes.
pub fn read_file<'a>(alloc: Global, bytes: &'a [u8]) -> Result<Coalgebra<'a>, FileFault>
    ensures accepted { IfOk result (λ c. Reads bytes.now (content_of c)) }
    ensures fault { IfErr result (Tells bytes.now) }
{
    if bytes.len() > MOST_BYTES {
        return Err(FileFault::TooLong);
    }
    let mut first = lines(bytes);
    let Some(functor) = first.next() else {
        let line = feeds(bytes) + 1;
        return Err(FileFault::Grammar { line });
    };
    let term = match read_term(alloc, functor.text) {
        Ok(term) => term,
        Err(TermFault::Grammar) => {
            return Err(FileFault::Grammar {
                line: functor.number,
            });
        }
        Err(TermFault::NoMemory) => return Err(FileFault::NoMemory),
    };
    let mut second = lines(bytes);
    let _functor = second.next();
    read_lines(alloc, term, first, second)
}
