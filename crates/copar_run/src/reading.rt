//! What may stop a request before its work: the reading of its files, and the names of states.
ghost use Rattle.std.specs.Prelude.{◌≡◌, ◌≢◌, ◌⊎◌, ◌≤◌, ◌^◌, ℕ, List, length, map, IfSome, IfOk, IfErr, Err};
ghost use Rattle.typing.specs.Contents.{content_of};
ghost use Rattle.structure_parser.specs.Reads.{Reads, most_bytes};
ghost use Rattle.copar_run.specs.Reading.{Tells};
ghost use Rattle.copar_run.specs.Outcome.{Stage, Holds, Stops, met};
ghost use Rattle.copar_run.specs.Named.{AreNumbers};
ghost use Rattle.copar_run.specs.Standing.{IsStrange};

use crate::Status;
use crate::ended::Ended;
use outside::{Folder, ReadAll, read_all};
use std::alloc::Global;
use structure_parser::{FileFault, read_file};
use typing::{Coalgebra, Names};

/// The most bytes that a file may have.
const MOST_BYTES: u64 = 67_108_864;

/// The bytes of a file of the folder, or why they were not read.
pub(crate) fn file_bytes<F: Folder>(
    alloc: Global,
    folder: &mut F,
    name: &str,
) -> Result<Vec<u8>, Status>
    ensures whole_file { IfOk result (λ bytes. IfSome (F.files folder.old) (λ files.
        Holds files name.now bytes.items)) }
    ensures within { IfOk result (λ bytes. length bytes.items ≤ most_bytes) }
    ensures stopped { IfErr result (λ status. (status ≡ Status.NoMemory)
        ⊎ Stops (met (F.files folder.old) (F.faults folder.old) (F.faults folder.new))
        (Stage.GetFile name.now) status) }
    ensures counted { result ≢ Err Status.ReadFault →
        (other : List ℕ) → F.faults folder.new other ≡ F.faults folder.old other }
    ensures files_stay { F.files folder.new ≡ F.files folder.old }
    ensures no_count_falls { (other : List ℕ) →
        F.faults folder.old other ≤ F.faults folder.new other }
{
    match read_all(alloc, folder, name, MOST_BYTES) {
        Ok(bytes) => Ok(bytes),
        Err(ReadAll::Failed) => Err(Status::ReadFault),
        Err(ReadAll::TooLong) => Err(Status::TooLong),
        Err(ReadAll::NoMemory) => Err(Status::NoMemory),
    }
}

/// The coalgebra that bytes denote, or the status that tells their first fault.
pub(crate) fn coalgebra_of<'a>(alloc: Global, bytes: &'a [u8]) -> Result<Coalgebra<'a>, Status>
    requires small { length bytes.now ≤ most_bytes }
    ensures read { IfOk result (λ c. Reads bytes.now (content_of c)) }
    ensures fault { IfErr result (Tells bytes.now) }
{
    match read_file(alloc, bytes) {
        Ok(c) => Ok(c),
        Err(FileFault::TooLong) => unreachable!(),
        Err(FileFault::Grammar { line }) => Err(Status::Grammar { line }),
        Err(FileFault::TypeFault { line, kind }) => Err(Status::TypeFault { line, kind }),
        Err(FileFault::WeightBound { line }) => Err(Status::WeightBound { line }),
        Err(FileFault::SumFault { line }) => Err(Status::SumFault { line }),
        Err(FileFault::NoMemory) => Err(Status::NoMemory),
    }
}

/// The numbers of the states that the words name, or the first word that names none. Places of
/// words are counted from `first`.
pub(crate) fn find_states<'w>(
    alloc: Global,
    names: &Names,
    first: usize,
    words: &[&'w str],
) -> Result<Vec<u32>, Ended<'w>>
    requires few { first ≤ 1 }
    ensures found { IfOk result (λ numbers.
        AreNumbers names.now (map (λ word. word.now) words.now) numbers.items) }
    ensures strange { IfErr result (λ ended. (ended.status ≡ Status.NoMemory)
        ⊎ IsStrange names.now (map (λ word. word.now) words.now) first
        ended.status ended.word.now) }
{
    let mut numbers = Vec::with_capacity(alloc, words.len())?;
    for k in 0..words.len() {
        let word = words[k];
        let Some(number) = names.number(word.as_bytes()) else {
            let status = Status::UnknownState { place: first + k };
            return Err(Ended { status, word });
        };
        numbers.push(number)?;
    }
    Ok(numbers)
}
