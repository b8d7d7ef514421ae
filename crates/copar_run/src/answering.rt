//! What tasks on a file have for their output, once the file is read.
ghost use Rattle.std.specs.Prelude.{◌≡◌, ◌+◌, ◌≤◌, ◌^◌, ℕ, List, map, IfSome, IfOk, IfErr};
ghost use Rattle.command_line.specs.Asked.{denoted_task};
ghost use Rattle.command_line.specs.Requests.{Request as Wanted, Task as WantedTask};
ghost use Rattle.typing.specs.Contents.{content_of};
ghost use Rattle.copar_run.specs.Outcome.{Denotes, later_stages, met};
ghost use Rattle.copar_run.specs.Lines.{told_line};
ghost use Rattle.copar_run.specs.Standing.{IsHalted, IsMade};

use crate::Status;
use crate::ended::Ended;
use crate::outputs::{blocks_output, certified_output, explained_output, minimal_output};
use crate::reading::{file_bytes, find_states};
use crate::verdicts::reason_line;
use answer_checker::{AnswerFault, Verdict, read_formulas, verify};
use command_line::Task;
use outside::{Folder, Steps};
use std::alloc::Global;
use std::sync::ledger::Ledger;
use truth_writer::truths_text;
use typing::Coalgebra;

/// What there is for output, and the status that comes once it is written.
#[derive(Drop)]
pub(crate) struct Made {
    pub text: Vec<u8>,
    pub status: Status,
}

/// An output after which a run is done.
pub(crate) fn done(text: Vec<u8>) -> Made
    ensures same { result.text.items ≡ text.items }
    ensures done { result.status ≡ Status.Done }
{
    Made {
        text,
        status: Status::Done,
    }
}

/// What a task on a file has for its output, once the file is read as this coalgebra, or why it has
/// none.
pub(crate) fn answer_of<'w, F: Folder, L: Ledger>(
    alloc: Global,
    file: &str,
    task: &Task<'w>,
    c: &Coalgebra,
    folder: &mut F,
    steps: &mut Steps<L>,
) -> Result<Made, Ended<'w>>
    requires steps_fit { steps.old ≤ 2 ^ 60 }
    requires read { IfSome (F.files folder.old) (λ files.
        Denotes files file.now (content_of c.now)) }
    ensures made { IfOk result (λ made. (rise : ℕ) × (steps.new ≡ steps.old + rise)
        × IsMade (Wanted.OnFile file.now (denoted_task task.now))
        (later_stages file.now (denoted_task task.now))
        (met (F.files folder.old) (F.faults folder.old) (F.faults folder.new)) rise
        made.status made.text.items) }
    ensures halted { IfErr result (λ ended. IsHalted
        (later_stages file.now (denoted_task task.now))
        (met (F.files folder.old) (F.faults folder.old) (F.faults folder.new))
        ended.status (told_line ended.status ended.word.now)) }
    ensures grows { steps.old ≤ steps.new }
    ensures files_stay { F.files folder.new ≡ F.files folder.old }
    ensures no_count_falls { (other : List ℕ) →
        F.faults folder.old other ≤ F.faults folder.new other }
{
    match task {
        Task::Blocks { stats } => Ok(done(blocks_output(alloc, c, *stats, steps)?)),
        Task::Minimise { stats } => Ok(done(minimal_output(alloc, c, *stats, steps)?)),
        Task::Explain { states, stats } => {
            let numbers = match find_states(alloc, &c.names, 0, states.as_slice()) {
                Ok(numbers) => numbers,
                Err(ended) => return Err(ended),
            };
            let text = explained_output(alloc, c, numbers.as_slice(), *stats, steps)?;
            Ok(done(text))
        }
        Task::Certify { stats } => Ok(done(certified_output(alloc, c, *stats, steps)?)),
        Task::Check { formulas, states } => {
            checked(alloc, c, file, formulas, states.as_slice(), folder)
        }
        Task::Verify { answer } => judged(alloc, c, file, answer, folder),
    }
}

/// The truths of the formulas of a second file at states of the coalgebra, which the file denotes.
fn checked<'w, F: Folder>(
    alloc: Global,
    c: &Coalgebra,
    file: &str,
    formulas: &str,
    states: &[&'w str],
    folder: &mut F,
) -> Result<Made, Ended<'w>>
    requires read { IfSome (F.files folder.old) (λ files.
        Denotes files file.now (content_of c.now)) }
    ensures made { IfOk result (λ made. IsMade
        (Wanted.OnFile file.now
        (WantedTask.Check formulas.now (map (λ word. word.now) states.now)))
        (later_stages file.now
        (WantedTask.Check formulas.now (map (λ word. word.now) states.now)))
        (met (F.files folder.old) (F.faults folder.old) (F.faults folder.new)) 0
        made.status made.text.items) }
    ensures halted { IfErr result (λ ended. IsHalted
        (later_stages file.now
        (WantedTask.Check formulas.now (map (λ word. word.now) states.now)))
        (met (F.files folder.old) (F.faults folder.old) (F.faults folder.new))
        ended.status (told_line ended.status ended.word.now)) }
    ensures files_stay { F.files folder.new ≡ F.files folder.old }
    ensures no_count_falls { (other : List ℕ) →
        F.faults folder.old other ≤ F.faults folder.new other }
{
    let numbers = match find_states(alloc, &c.names, 1, states) {
        Ok(numbers) => numbers,
        Err(ended) => return Err(ended),
    };
    let bytes = match file_bytes(alloc, folder, formulas) {
        Ok(bytes) => bytes,
        Err(status) => return Err(Ended::by(status)),
    };
    let dag = match read_formulas(alloc, &c.term, &bytes) {
        Ok(dag) => dag,
        Err(AnswerFault::BadLine { line }) => {
            return Err(Ended::by(Status::AnswerText { line }));
        }
        Err(AnswerFault::NoMemory) => return Err(Ended::by(Status::NoMemory)),
    };
    let text = truths_text(alloc, c, &dag, states, numbers.as_slice())?;
    Ok(done(text))
}

/// The verdict on the answer in a second file, about the coalgebra that the file denotes.
fn judged<'w, F: Folder>(
    alloc: Global,
    c: &Coalgebra,
    file: &str,
    answer: &str,
    folder: &mut F,
) -> Result<Made, Ended<'w>>
    requires read { IfSome (F.files folder.old) (λ files.
        Denotes files file.now (content_of c.now)) }
    ensures made { IfOk result (λ made. IsMade
        (Wanted.OnFile file.now (WantedTask.Verify answer.now))
        (later_stages file.now (WantedTask.Verify answer.now))
        (met (F.files folder.old) (F.faults folder.old) (F.faults folder.new)) 0
        made.status made.text.items) }
    ensures halted { IfErr result (λ ended. IsHalted
        (later_stages file.now (WantedTask.Verify answer.now))
        (met (F.files folder.old) (F.faults folder.old) (F.faults folder.new))
        ended.status (told_line ended.status ended.word.now)) }
    ensures files_stay { F.files folder.new ≡ F.files folder.old }
    ensures no_count_falls { (other : List ℕ) →
        F.faults folder.old other ≤ F.faults folder.new other }
{
    let bytes = match file_bytes(alloc, folder, answer) {
        Ok(bytes) => bytes,
        Err(status) => return Err(Ended::by(status)),
    };
    match verify(alloc, c, &bytes)? {
        Verdict::BadLine(line) => Err(Ended::by(Status::AnswerText { line })),
        Verdict::No(reason) => Ok(Made {
            text: reason_line(alloc, &c.names, reason)?,
            status: Status::No,
        }),
        Verdict::Yes => Ok(done(Vec::from_slice(alloc, b"right\n")?)),
    }
}
