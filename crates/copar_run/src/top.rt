//! The top call.
ghost use Rattle.std.specs.Prelude.{◌≡◌, ◌≢◌, ◌⊎◌, ◌+◌, ◌≤◌, ◌^◌, ℕ, List, [], true, false, IfOk, IfErr, Some};
ghost use Rattle.std.specs.Io.KnownBytes.{append_known};
ghost use Rattle.outside.specs.Faults.{Rose};
ghost use Rattle.command_line.specs.Asked.{denoted, denoted_task};
ghost use Rattle.command_line.specs.Requests.{Request as Wanted, Asks, AsksNothing, IsDrawable};
ghost use Rattle.copar_run.specs.declared.status.Status.{Status as Ending};
ghost use Rattle.copar_run.specs.Outputs.{Subject, Prints, MayEnd};
ghost use Rattle.copar_run.specs.Outcome.{Files, IsQuiet, stages_of, Cause, Reached, PassesAll, IsRead, IsSubject, Ends, Ran, Stage, counts, is_end, is_stop, later_stages, met, of_file};
ghost use Rattle.copar_run.specs.Lines.{IsLine, IsToldOn, told_line};
ghost use Rattle.copar_run.specs.Standing.{IsHalted, IsMade};

use crate::Status;
use crate::answering::{Made, answer_of, done};
use crate::ended::Ended;
use crate::laws::runs_end_so;
use crate::lines::tell;
use crate::reading::{coalgebra_of, file_bytes};
use crate::trial::trial_output;
use command_line::{Request, Task, WordList, asked_by};
use outside::{Folder, Sink, Steps, put_all};
use std::alloc::Global;
use std::sync::ledger::Ledger;

/// What the request has for its output over the folder, or why it has none.
fn output_over<'w, F: Folder, L: Ledger>(
    alloc: Global,
    request: &Request<'w>,
    folder: &mut F,
    steps: &mut Steps<L>,
) -> Result<Made, Ended<'w>>
    requires steps_fit { steps.old ≤ 2 ^ 60 }
    requires drawable { IsDrawable (denoted request.now) }
    ensures made { IfOk result (λ made. (rise : ℕ) × (steps.new ≡ steps.old + rise)
        × IsMade (denoted request.now) (stages_of (denoted request.now))
        (met (F.files folder.old) (F.faults folder.old) (F.faults folder.new)) rise
        made.status made.text.items) }
    ensures halted { IfErr result (λ ended. IsHalted (stages_of (denoted request.now))
        (met (F.files folder.old) (F.faults folder.old) (F.faults folder.new))
        ended.status (told_line ended.status ended.word.now)) }
    ensures grows { steps.old ≤ steps.new }
    ensures files_stay { F.files folder.new ≡ F.files folder.old }
    ensures no_count_falls { (other : List ℕ) →
        F.faults folder.old other ≤ F.faults folder.new other }
{
    match request {
        Request::OnFile { file, task } => output_on(alloc, file, task, folder, steps),
        Request::Trial { kind, seed, size } => {
            match trial_output(alloc, *kind, *seed, *size, steps) {
                Ok(text) => Ok(done(text)),
                Err(ended) => Err(ended),
            }
        }
    }
}

/// What a task on a file has for its output over the folder, or why it has none.
fn output_on<'w, F: Folder, L: Ledger>(
    alloc: Global,
    file: &str,
    task: &Task<'w>,
    folder: &mut F,
    steps: &mut Steps<L>,
) -> Result<Made, Ended<'w>>
    requires steps_fit { steps.old ≤ 2 ^ 60 }
    ensures made { IfOk result (λ made. (rise : ℕ) × (steps.new ≡ steps.old + rise)
        × IsMade (Wanted.OnFile file.now (denoted_task task.now))
        (of_file file.now (later_stages file.now (denoted_task task.now)))
        (met (F.files folder.old) (F.faults folder.old) (F.faults folder.new)) rise
        made.status made.text.items) }
    ensures halted { IfErr result (λ ended. IsHalted
        (of_file file.now (later_stages file.now (denoted_task task.now)))
        (met (F.files folder.old) (F.faults folder.old) (F.faults folder.new))
        ended.status (told_line ended.status ended.word.now)) }
    ensures grows { steps.old ≤ steps.new }
    ensures files_stay { F.files folder.new ≡ F.files folder.old }
    ensures no_count_falls { (other : List ℕ) →
        F.faults folder.old other ≤ F.faults folder.new other }
{
    let bytes = match file_bytes(alloc, folder, file) {
        Ok(bytes) => bytes,
        Err(status) => return Err(Ended::by(status)),
    };
    let c = match coalgebra_of(alloc, &bytes) {
        Ok(c) => c,
        Err(status) => return Err(Ended::by(status)),
    };
    answer_of(alloc, file, task, &c, folder, steps)
}

/// Answers a request over the folder on `out`, and says how that ended.
fn work<'w, F: Folder, O: Sink, L: Ledger>(
    alloc: Global,
    request: &Request<'w>,
    folder: &mut F,
    out: &mut O,
    steps: &mut Steps<L>,
) -> Ended<'w>
    requires steps_fit { steps.old ≤ 2 ^ 60 }
    requires drawable { IsDrawable (denoted request.now) }
    ensures ends { (rise : ℕ) × (output : List ℕ) × (steps.new ≡ steps.old + rise)
        × (O.taken out.new ≡ append_known (O.taken out.old) output)
        × (output ≡ [] → result.status ≢ Status.WriteFault → out.new ≡ out.old)
        × Ends (denoted request.now)
        (met (F.files folder.old) (F.faults folder.old) (F.faults folder.new))
        (counts (O.faults out.old) (O.faults out.new)) rise result.status output }
    ensures line { (words : List (List ℕ)) → Asks words (denoted request.now) →
        is_end result.status ≡ false → IsLine words
        (met (F.files folder.old) (F.faults folder.old) (F.faults folder.new))
        result.status (told_line result.status result.word.now) }
    ensures files_stay { F.files folder.new ≡ F.files folder.old }
    ensures folder_later { (other : List ℕ) →
        F.faults folder.old other ≤ F.faults folder.new other }
    ensures out_later { O.faults out.old ≤ O.faults out.new }
{
    match output_over(alloc, request, folder, steps) {
        Ok(made) => {
            if put_all(out, &made.text) {
                Ended::by(made.status)
            } else {
                Ended::by(Status::WriteFault)
            }
        }
        Err(ended) => ended,
    }
}

/// Reads the words and answers what they ask for, and says how that ended.
fn ended<'w, F: Folder, O: Sink, L: Ledger>(
    alloc: Global,
    words: &'w WordList,
    folder: &mut F,
    out: &mut O,
    steps: &mut Steps<L>,
) -> Ended<'w>
    requires steps_fit { steps.old ≤ 2 ^ 60 }
    ensures ends { (rise : ℕ) × (output : List ℕ) × (steps.new ≡ steps.old + rise)
        × (O.taken out.new ≡ append_known (O.taken out.old) output)
        × (output ≡ [] → result.status ≢ Status.WriteFault → out.new ≡ out.old)
        × Ran words.now (met (F.files folder.old) (F.faults folder.old) (F.faults folder.new))
        (counts (O.faults out.old) (O.faults out.new)) rise result.status output }
    ensures line { is_end result.status ≡ false → result.status ≢ Status.Usage → IsLine words.now
        (met (F.files folder.old) (F.faults folder.old) (F.faults folder.new))
        result.status (told_line result.status result.word.now) }
    ensures unread { result.status ≡ Status.Usage → folder.new ≡ folder.old }
    ensures files_stay { F.files folder.new ≡ F.files folder.old }
    ensures folder_later { (other : List ℕ) →
        F.faults folder.old other ≤ F.faults folder.new other }
    ensures out_later { O.faults out.old ≤ O.faults out.new }
{
    let request = match asked_by(alloc, words) {
        Ok(Some(request)) => request,
        Ok(None) => return Ended::by(Status::Usage),
        Err(_) => return Ended::by(Status::NoMemory),
    };
    work(alloc, &request, folder, out, steps)
}

/// Does all that the program does but for the line on `err`: it answers the words over the folder
/// on `out`, and says how that ended, with the word that its line tells. The words are those behind
/// the program's name. The count of steps is at most 2^60.
pub fn answer<'w, F: Folder, O: Sink, L: Ledger>(
    alloc: Global,
    words: &'w WordList,
    folder: &mut F,
    out: &mut O,
    steps: &mut Steps<L>,
) -> Ended<'w>
    requires { steps.old ≤ 2 ^ 60 }
    // how it ended, what it wrote, and how many steps it took; all that follows is said by this
    ensures ends { (rise : ℕ) × (output : List ℕ) × (steps.new ≡ steps.old + rise)
        × (O.taken out.new ≡ append_known (O.taken out.old) output)
        × (output ≡ [] → result.status ≢ Status.WriteFault → out.new ≡ out.old)
        × Ran words.now (met (F.files folder.old) (F.faults folder.old) (F.faults folder.new))
        (counts (O.faults out.old) (O.faults out.new)) rise result.status output }
    ensures usage { AsksNothing words.now →
        (result.status ≡ Status.Usage) ⊎ (result.status ≡ Status.NoMemory) }
    ensures usage_only { result.status ≡ Status.Usage → AsksNothing words.now }
    ensures unread { result.status ≡ Status.Usage → folder.new ≡ folder.old }
    // a status of a stage has its cause there, where the folder tells its files
    ensures judged { (files : Files) (request : Wanted) → F.files folder.old ≡ Some files →
        Asks words.now request → is_stop result.status ≡ true → (result.status ≡ Status.ReadFault)
        ⊎ ((stage : Stage) × Reached (met (F.files folder.old) (F.faults folder.old)
        (F.faults folder.new)) (stages_of request) stage × Cause files stage result.status) }
    // a cause at a stage that is reached is told, unless a read fails or memory is wanting
    ensures fault_is_told { (files : Files) (request : Wanted) (stage : Stage) (fault : Ending) →
        F.files folder.old ≡ Some files → Asks words.now request →
        Reached (met (F.files folder.old) (F.faults folder.old) (F.faults folder.new))
        (stages_of request) stage → Cause files stage fault →
        (result.status ≡ fault)
        ⊎ ((result.status ≡ Status.ReadFault) ⊎ (result.status ≡ Status.NoMemory)) }
    ensures read_fault { (request : Wanted) → Asks words.now request →
        result.status ≡ Status.ReadFault → (name : List ℕ) × IsRead (met (F.files folder.old)
        (F.faults folder.old) (F.faults folder.new)) request name
        × Rose (F.faults folder.old name) (F.faults folder.new name) }
    ensures write_fault { result.status ≡ Status.WriteFault →
        Rose (O.faults out.old) (O.faults out.new) }
    // a failed read or write is not passed over
    ensures reads_are_told { result.status ≢ Status.ReadFault →
        (name : List ℕ) → F.faults folder.new name ≡ F.faults folder.old name }
    ensures writes_are_told { result.status ≢ Status.WriteFault →
        O.faults out.new ≡ O.faults out.old }
    // a refused run makes no call on `out`
    ensures untouched { is_end result.status ≡ false → result.status ≢ Status.WriteFault →
        out.new ≡ out.old }
    // Where nothing stops the request and nothing fails, only memory can be wanting, or `out` got
    // what the request prints for the coalgebra that its file denotes, or that a trial draws. For
    // `blocks`, two states share a printed block exactly if they are behaviourally equivalent; for
    // `minimise`, it is the quotient, and no two of its states are equivalent; for `explain`, each
    // formula that separates two states holds at the first and fails at the second; and for
    // `verify`, Done comes only where the blocks of the answer are those of equivalence.
    ensures headline { (files : Files) (request : Wanted) (subject : Subject) →
        F.files folder.old ≡ Some files → Asks words.now request → PassesAll (met
        (F.files folder.old) (F.faults folder.old) (F.faults folder.new)) (stages_of request) →
        IsSubject files request subject →
        ((name : List ℕ) → IsRead (met (F.files folder.old) (F.faults folder.old)
        (F.faults folder.new)) request name →
        IsQuiet (F.faults folder.old name) (F.faults folder.new name)) →
        IsQuiet (O.faults out.old) (O.faults out.new) →
        (result.status ≡ Status.NoMemory)
        ⊎ (MayEnd request result.status × ((rise : ℕ) × (output : List ℕ)
        × (steps.new ≡ steps.old + rise) × Prints request subject rise result.status output
        × (O.taken out.new ≡ append_known (O.taken out.old) output))) }
    // the line that tells why there is no whole output
    ensures line { is_end result.status ≡ false → result.status ≢ Status.Usage → IsLine words.now
        (met (F.files folder.old) (F.faults folder.old) (F.faults folder.new))
        result.status (told_line result.status result.word.now) }
    ensures files_stay { F.files folder.new ≡ F.files folder.old }
    ensures folder_later { (other : List ℕ) →
        F.faults folder.old other ≤ F.faults folder.new other }
    ensures out_later { O.faults out.old ≤ O.faults out.new }
{
    runs_end_so();
    ended(alloc, words, folder, out, steps)
}

/// Does all that the program does: it answers the words over the folder on `out`, or says on `err`
/// why not. The words are those behind the program's name. The count of steps is at most 2^60.
///
/// What happens on `err` changes nothing else, since the status is there before `err` is used.
pub fn run<F: Folder, O: Sink, E: Sink, L: Ledger>(
    alloc: Global,
    words: &WordList,
    folder: &mut F,
    out: &mut O,
    err: &mut E,
    steps: &mut Steps<L>,
) -> Status
    requires { steps.old ≤ 2 ^ 60 }
    // how it ended, what it wrote, and how many steps it took; all that follows is said by this
    ensures ends { (rise : ℕ) × (output : List ℕ) × (steps.new ≡ steps.old + rise)
        × (O.taken out.new ≡ append_known (O.taken out.old) output)
        × (output ≡ [] → result ≢ Status.WriteFault → out.new ≡ out.old)
        × Ran words.now (met (F.files folder.old) (F.faults folder.old) (F.faults folder.new))
        (counts (O.faults out.old) (O.faults out.new)) rise result output }
    ensures usage { AsksNothing words.now →
        (result ≡ Status.Usage) ⊎ (result ≡ Status.NoMemory) }
    ensures usage_only { result ≡ Status.Usage → AsksNothing words.now }
    ensures unread { result ≡ Status.Usage → folder.new ≡ folder.old }
    // a status of a stage has its cause there, where the folder tells its files
    ensures judged { (files : Files) (request : Wanted) → F.files folder.old ≡ Some files →
        Asks words.now request → is_stop result ≡ true → (result ≡ Status.ReadFault)
        ⊎ ((stage : Stage) × Reached (met (F.files folder.old) (F.faults folder.old)
        (F.faults folder.new)) (stages_of request) stage × Cause files stage result) }
    // a cause at a stage that is reached is told, unless a read fails or memory is wanting
    ensures fault_is_told { (files : Files) (request : Wanted) (stage : Stage) (fault : Ending) →
        F.files folder.old ≡ Some files → Asks words.now request →
        Reached (met (F.files folder.old) (F.faults folder.old) (F.faults folder.new))
        (stages_of request) stage → Cause files stage fault →
        (result ≡ fault) ⊎ ((result ≡ Status.ReadFault) ⊎ (result ≡ Status.NoMemory)) }
    ensures read_fault { (request : Wanted) → Asks words.now request →
        result ≡ Status.ReadFault → (name : List ℕ) × IsRead (met (F.files folder.old)
        (F.faults folder.old) (F.faults folder.new)) request name
        × Rose (F.faults folder.old name) (F.faults folder.new name) }
    ensures write_fault { result ≡ Status.WriteFault → Rose (O.faults out.old) (O.faults out.new) }
    // a failed read or write is not passed over
    ensures reads_are_told { result ≢ Status.ReadFault →
        (name : List ℕ) → F.faults folder.new name ≡ F.faults folder.old name }
    ensures writes_are_told { result ≢ Status.WriteFault → O.faults out.new ≡ O.faults out.old }
    // a refused run makes no call on `out`
    ensures untouched { is_end result ≡ false → result ≢ Status.WriteFault → out.new ≡ out.old }
    // Where nothing stops the request and nothing fails, only memory can be wanting, or `out` got
    // what the request prints for the coalgebra that its file denotes, or that a trial draws. For
    // `blocks`, two states share a printed block exactly if they are behaviourally equivalent; for
    // `minimise`, it is the quotient, and no two of its states are equivalent; for `explain`, each
    // formula that separates two states holds at the first and fails at the second; and for
    // `verify`, Done comes only where the blocks of the answer are those of equivalence.
    ensures headline { (files : Files) (request : Wanted) (subject : Subject) →
        F.files folder.old ≡ Some files → Asks words.now request → PassesAll (met
        (F.files folder.old) (F.faults folder.old) (F.faults folder.new)) (stages_of request) →
        IsSubject files request subject →
        ((name : List ℕ) → IsRead (met (F.files folder.old) (F.faults folder.old)
        (F.faults folder.new)) request name →
        IsQuiet (F.faults folder.old name) (F.faults folder.new name)) →
        IsQuiet (O.faults out.old) (O.faults out.new) →
        (result ≡ Status.NoMemory) ⊎ (MayEnd request result × ((rise : ℕ) × (output : List ℕ)
        × (steps.new ≡ steps.old + rise) × Prints request subject rise result output
        × (O.taken out.new ≡ append_known (O.taken out.old) output))) }
    ensures files_stay { F.files folder.new ≡ F.files folder.old }
    ensures folder_later { (other : List ℕ) →
        F.faults folder.old other ≤ F.faults folder.new other }
    ensures out_later { O.faults out.old ≤ O.faults out.new }
    // why there is no whole output is told on `err`
    ensures told { IsToldOn words.now (met (F.files folder.old) (F.faults folder.old)
        (F.faults folder.new)) result (E.taken err.old) (E.taken err.new)
        (counts (E.faults err.old) (E.faults err.new)) }
    ensures no_line { is_end result ≡ true → err.new ≡ err.old }
    ensures err_later { E.faults err.old ≤ E.faults err.new }
{
    let ended = answer(alloc, words, folder, out, steps);
    tell(alloc, err, words, &ended);
    ended.status
}
