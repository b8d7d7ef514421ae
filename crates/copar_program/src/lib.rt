//! The program: the real outside around the top call, and the number that it ends with.
//!
//! Shape: the words of the command line go into a register, and the top call runs over the files
//! and the writers of the system. It stands apart from `main`, so that other programs can run many
//! command lines one after another.
//! Limits: the adapters tell no content, so nothing is claimed of what a real file holds or what a
//! terminal takes. They do count each error of the system, which is what the top call needs.
#![tactic(auto)]

ghost use Rattle.std.specs.Prelude.{◌≡◌, ◌<◌};
ghost use Rattle.std.specs.Process.{exit_status};
ghost use Rattle.copar_run.specs.Outcome.{code_of};
ghost use Rattle.copar_program.specs.WordFaults.{status_for};

use copar_run::{Status, WordList, run};
use outside::{Folder, Sink, Steps};
use std::alloc::Global;
use std::env;
use std::io::{ErrorKind, Write};
use std::marker::Brand;
use std::process::ExitCode;
use std::rt::{Env, Files};
use std::sync::ledger::{Blank, Ledger};
use system_outside::{DiskFolder, Stream};

/// Runs the words of the command line, and says how that ended. Where they are no text, or there is
/// no memory for them, nothing is run.
pub fn program<R: Files + Env + AllocGlobal, O: Write + Drop, E: Write + Drop>(
    rt: &R,
    out: O,
    err: E,
) -> Status {
    let mut words = WordList::new(rt.alloc());
    match read_words(rt, &mut words) {
        Ok(()) => ran(rt, &words, out, err),
        Err(status) => status,
    }
}

/// Runs these words over the files of the system, with a counter of its own.
pub fn ran<R: Files + AllocGlobal, O: Write + Drop, E: Write + Drop>(
    rt: &R,
    words: &WordList,
    out: O,
    err: E,
) -> Status {
    let mut folder = DiskFolder::new(rt);
    let mut out = Stream::new(out);
    let mut err = Stream::new(err);
    let blank = Blank::new(1);
    counted::<_, _, _, Brand>(rt.alloc(), words, &mut folder, &mut out, &mut err, blank)
}

/// The code that the program ends with: the number of its status.
pub fn exit_code(status: Status) -> ExitCode
    ensures number { exit_status result ≡ code_of status }
{
    ExitCode::from(status.code())
}

/// Why the words of the command line were not got: there was no memory for them, or they are no
/// text.
pub fn word_fault(kind: ErrorKind) -> Status
    ensures status { result ≡ status_for kind }
{
    match kind {
        ErrorKind::OutOfMemory => Status::NoMemory,
        _ => Status::Usage,
    }
}

/// Puts the words after the program's name into a register.
fn read_words(rt: &(impl Env + AllocGlobal), words: &mut WordList) -> Result<(), Status> {
    let all = match env::args(rt) {
        Ok(all) => all,
        Err(fault) => return Err(word_fault(fault.kind())),
    };
    for word in all.skip(1) {
        if words.add(word.as_str()).is_err() {
            return Err(Status::NoMemory);
        }
    }
    Ok(())
}

/// Runs with a counter over a fresh ledger.
fn counted<F: Folder, O: Sink, E: Sink, L: Ledger>(
    alloc: Global,
    words: &WordList,
    folder: &mut F,
    out: &mut O,
    err: &mut E,
    blank: Blank,
) -> Status
    requires name { blank.name ≡ L.name }
    requires parts { blank.parts ≡ L.parts }
    requires some { 0 < L.parts }
{
    let mut steps = Steps::<L>::fresh(blank);
    run(alloc, words, folder, out, err, &mut steps)
}
