//! Laws of the definitions, each the contract of a function that does nothing.
ghost use Rattle.std.specs.Prelude.{◌≡◌, ◌≢◌, ◌⊎◌, ℕ, List, [], Some, false, true, take};
ghost use Rattle.outside.specs.Faults.{Rose};
ghost use Rattle.command_line.specs.Requests.{Request, Asks, AsksNothing};
ghost use Rattle.copar_run.specs.declared.status.Status.{Status as Ending};
ghost use Rattle.copar_run.specs.Outputs.{Subject, Prints, MayEnd};
ghost use Rattle.copar_run.specs.Outcome.{Counts, Files, IsQuiet, NoReadFailed, NoWriteFailed, Outside, Stage, stages_of, Cause, Reached, PassesAll, Stops, IsRead, IsSubject, Answers, Ran, is_stop, is_end};

use crate::Status;
use structure_parser::{faults_refuse_files, files_have_one_fault, files_have_one_reading};

/// Where the folder tells its files, the stages of a request stop it with one status, save for
/// failed reads.
pub fn one_stage_stops()
    ensures one_status { (files : Files) (o : Outside) (stages : List Stage) (a b : Stage)
        (s t : Ending) → o.files ≡ Some files → Reached o stages a → Stops o a s →
        Reached o stages b → Stops o b t →
        (t ≡ s) ⊎ ((s ≡ Status.ReadFault) ⊎ (t ≡ Status.ReadFault)) }
{
    files_have_one_reading();
    files_have_one_fault();
    faults_refuse_files();
}

/// What follows from how a run ends. The top call has each of these as a clause of its own.
pub fn runs_end_so()
    ensures usage { (words : List (List ℕ)) (o : Outside) (w : Counts) (rise : ℕ) (s : Ending)
        (output : List ℕ) → AsksNothing words → Ran words o w rise s output →
        (s ≡ Status.Usage) ⊎ (s ≡ Status.NoMemory) }
    ensures usage_only { (words : List (List ℕ)) (o : Outside) (w : Counts) (rise : ℕ)
        (s : Ending) (output : List ℕ) → Ran words o w rise s output → s ≡ Status.Usage →
        AsksNothing words }
    ensures judged { (words : List (List ℕ)) (o : Outside) (w : Counts) (rise : ℕ) (s : Ending)
        (output : List ℕ) (files : Files) (request : Request) → Ran words o w rise s output →
        o.files ≡ Some files → Asks words request → is_stop s ≡ true → (s ≡ Status.ReadFault)
        ⊎ ((stage : Stage) × Reached o (stages_of request) stage × Cause files stage s) }
    ensures fault_is_told { (words : List (List ℕ)) (o : Outside) (w : Counts) (rise : ℕ)
        (s : Ending) (output : List ℕ) (files : Files) (request : Request) (stage : Stage)
        (fault : Ending) → Ran words o w rise s output → o.files ≡ Some files →
        Asks words request → Reached o (stages_of request) stage → Cause files stage fault →
        (s ≡ fault) ⊎ ((s ≡ Status.ReadFault) ⊎ (s ≡ Status.NoMemory)) }
    ensures nothing { (words : List (List ℕ)) (o : Outside) (w : Counts) (rise : ℕ) (s : Ending)
        (output : List ℕ) → Ran words o w rise s output → is_end s ≡ false →
        s ≢ Status.WriteFault → output ≡ [] }
    ensures read_fault { (words : List (List ℕ)) (o : Outside) (w : Counts) (rise : ℕ)
        (s : Ending) (output : List ℕ) (request : Request) → Ran words o w rise s output →
        Asks words request → s ≡ Status.ReadFault →
        (name : List ℕ) × IsRead o request name × Rose (o.before name) (o.now name) }
    ensures write_fault { (words : List (List ℕ)) (o : Outside) (w : Counts) (rise : ℕ)
        (s : Ending) (output : List ℕ) (request : Request) → Ran words o w rise s output →
        Asks words request → s ≡ Status.WriteFault → Rose w.before w.now
        × ((ending : Ending) × (whole : List ℕ) × (n : ℕ)
        × Answers o request rise ending whole × (output ≡ take n whole)) }
    ensures whole { (words : List (List ℕ)) (o : Outside) (w : Counts) (rise : ℕ) (s : Ending)
        (output : List ℕ) (request : Request) → Ran words o w rise s output →
        Asks words request → is_end s ≡ true → Answers o request rise s output }
    ensures reads_are_told { (words : List (List ℕ)) (o : Outside) (w : Counts) (rise : ℕ)
        (s : Ending) (output : List ℕ) → Ran words o w rise s output →
        s ≢ Status.ReadFault → NoReadFailed o }
    ensures writes_are_told { (words : List (List ℕ)) (o : Outside) (w : Counts) (rise : ℕ)
        (s : Ending) (output : List ℕ) → Ran words o w rise s output →
        s ≢ Status.WriteFault → NoWriteFailed w }
    ensures headline { (words : List (List ℕ)) (o : Outside) (w : Counts) (rise : ℕ) (s : Ending)
        (output : List ℕ) (files : Files) (request : Request) (subject : Subject) →
        Ran words o w rise s output → o.files ≡ Some files → Asks words request →
        PassesAll o (stages_of request) → IsSubject files request subject →
        ((name : List ℕ) → IsRead o request name → IsQuiet (o.before name) (o.now name)) →
        IsQuiet w.before w.now →
        (s ≡ Status.NoMemory) ⊎ (MayEnd request s × Prints request subject rise s output) }
{
    files_have_one_reading();
    files_have_one_fault();
    faults_refuse_files();
}
