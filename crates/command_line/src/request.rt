// The table of commands.
ghost use Rattle.std.specs.Prelude.{◌≡◌, ◌∷◌, map, option_map, IfOk, IfSome};
ghost use Rattle.std.specs.Char.{is_ascii_digit};
ghost use Rattle.std.specs.List.{list_all, list_any};
ghost use Rattle.command_line.specs.Asked.{denoted, denoted_task};
ghost use Rattle.command_line.specs.Plain.{line_with};
ghost use Rattle.command_line.specs.Requests.{IsDrawable, asked, is_empty, if_none as the_if_none, explain_of as the_explain_of, check_of as the_check_of, verify_of as the_verify_of, kind_of as the_kind_of, number_in as the_number_in, size_in as the_size_in, trial_of as the_trial_of, row_of as the_row_of, request_of as the_request_of};

use crate::WordList;
use crate::parts::{Line, parts_of};
use clap::error::ErrorKind;
use std::alloc::{AllocError, Global};
use trial_texts::TrialKind;

/// What is asked of a file, with the names of a further file and of the states, and whether the
/// line of statistics is wanted.
#[derive(Debug, Drop)]
pub enum Task<'a> {
    /// The block of each state.
    Blocks {
        stats: bool,
    },
    /// The quotient by the blocks.
    Minimise {
        stats: bool,
    },
    /// For each two of the states, one after the other, whether they are equivalent, and if not, a
    /// formula that holds at the first alone.
    Explain {
        states: Vec<&'a str>,
        stats: bool,
    },
    /// The blocks, each with a formula that holds at exactly its states.
    Certify {
        stats: bool,
    },
    /// The truth of each formula of a file at each of the states.
    Check {
        formulas: &'a str,
        states: Vec<&'a str>,
    },
    /// Whether the answer in a file is right.
    Verify {
        answer: &'a str,
    },
}

/// What is asked for: a task on the file of a name, or the counts of a drawn system.
#[derive(Debug, Drop)]
pub enum Request<'a> {
    /// A task on the file of this name.
    OnFile {
        file: &'a str,
        task: Task<'a>,
    },
    /// A system of a kind with 1 to 200,000 states, drawn from the seed on.
    Trial {
        kind: TrialKind,
        seed: u64,
        size: u32,
    },
}

/// The most states that a trial has.
const MOST_DRAWN: u64 = 200_000;

/// The task on the file, if there is no word behind it.
fn if_none<'a>(rest: &[&'a str], file: &'a str, task: Task<'a>) -> Option<Request<'a>>
    ensures { option_map denoted result
        ≡ the_if_none (map (λ word. word.now) rest.now) file.now (denoted_task task.entry) }
{
    if rest.is_empty() {
        Some(Request::OnFile { file, task })
    } else {
        None
    }
}

/// Whether one of the words has no byte.
fn any_is_empty(words: &[&str]) -> bool
    ensures { result ≡ list_any is_empty (map (λ word. word.now) words.now) }
{
    for word in words {
        if word.is_empty() {
            return true;
        }
    }
    false
}

/// An explanation of pairs, one or more.
fn explain_of<'a>(file: &'a str, rest: Vec<&'a str>, stats: bool) -> Option<Request<'a>>
    ensures { option_map denoted result
        ≡ the_explain_of file.now (map (λ word. word.now) rest.entry.items) stats }
{
    if rest.is_empty() || rest.len() % 2 != 0 {
        return None;
    }
    Some(Request::OnFile {
        file,
        task: Task::Explain {
            states: rest,
            stats,
        },
    })
}

/// Formulas at states: a further file, and one state or more.
fn check_of<'a>(file: &'a str, rest: Vec<&'a str>) -> Option<Request<'a>>
    ensures { option_map denoted result
        ≡ the_check_of file.now (map (λ word. word.now) rest.entry.items) }
{
    if rest.len() < 2 {
        return None;
    }
    let mut states = rest;
    let formulas = states.remove(0);
    Some(Request::OnFile {
        file,
        task: Task::Check { formulas, states },
    })
}

/// An answer to be judged: one further file.
fn verify_of<'a>(file: &'a str, rest: &[&'a str]) -> Option<Request<'a>>
    ensures { option_map denoted result
        ≡ the_verify_of file.now (map (λ word. word.now) rest.now) }
{
    match rest {
        [answer] => Some(Request::OnFile {
            file,
            task: Task::Verify { answer: *answer },
        }),
        _ => None,
    }
}

/// The kind of trial that a word names.
fn kind_of(word: &str) -> Option<TrialKind>
    ensures { result ≡ the_kind_of word.now }
{
    match word {
        "lts" => Some(TrialKind::Lts),
        "chain" => Some(TrialKind::Chain),
        "sums" => Some(TrialKind::Sums),
        "dfa" => Some(TrialKind::Dfa),
        _ => None,
    }
}

/// Whether each byte of a word is a digit.
fn all_digits(word: &str) -> bool
    ensures { result ≡ list_all is_ascii_digit word.now }
{
    word.as_bytes().iter().all(|byte| byte.is_ascii_digit())
}

/// The number that digits write, where it is below 2^64.
fn number_in(word: &str) -> Option<u64>
    ensures { result ≡ the_number_in word.now }
{
    if !all_digits(word) {
        return None;
    }
    word.parse::<u64>().ok()
}

/// The number of states that a word asks for, from 1 to 200,000.
fn size_in(word: &str) -> Option<u32>
    ensures { result ≡ the_size_in word.now }
{
    let size = number_in(word)?;
    if size < 1 || size > MOST_DRAWN {
        return None;
    }
    Some(size as u32)
}

/// A trial: a kind, a seed and a size.
fn trial_of<'a>(word: &str, rest: &[&'a str]) -> Option<Request<'a>>
    ensures { option_map denoted result
        ≡ the_trial_of word.now (map (λ word. word.now) rest.now) }
{
    match rest {
        [seed, size] => Some(Request::Trial {
            kind: kind_of(word)?,
            seed: number_in(*seed)?,
            size: size_in(*size)?,
        }),
        _ => None,
    }
}

/// The request of a line without an empty word, by the table of commands.
fn row_of<'a>(line: Line<'a>) -> Option<Request<'a>>
    ensures { option_map denoted result ≡ the_row_of (line_with line.entry.action.now
        line.entry.file.now (map (λ word. word.now) line.entry.rest.items) line.entry.stats) }
{
    let Line {
        action,
        file,
        rest,
        stats,
    } = line;
    match action {
        "blocks" => if_none(rest.as_slice(), file, Task::Blocks { stats }),
        "minimise" => if_none(rest.as_slice(), file, Task::Minimise { stats }),
        "explain" => explain_of(file, rest, stats),
        "certify" => if_none(rest.as_slice(), file, Task::Certify { stats }),
        _ if stats => None,
        "check" => check_of(file, rest),
        "verify" => verify_of(file, rest.as_slice()),
        "trial" => trial_of(file, rest.as_slice()),
        _ => None,
    }
}

/// The request of a line, by the table of commands. An empty word is of no row.
fn request_of<'a>(line: Line<'a>) -> Option<Request<'a>>
    ensures { option_map denoted result ≡ the_request_of (line_with line.entry.action.now
        line.entry.file.now (map (λ word. word.now) line.entry.rest.items) line.entry.stats) }
{
    if line.action.is_empty() || line.file.is_empty() || any_is_empty(line.rest.as_slice()) {
        return None;
    }
    row_of(line)
}

/// The request that the words make, or None where they are of no row of the table. The error is
/// want of memory.
pub fn asked_by<'a>(alloc: Global, words: &'a WordList) -> Result<Option<Request<'a>>, AllocError>
    ensures asked { IfOk result (λ request. option_map denoted request ≡ asked words.now) }
    ensures drawable { IfOk result (λ made.
        IfSome made (λ request. IsDrawable (denoted request))) }
{
    match parts_of(alloc, words) {
        Ok(line) => Ok(request_of(line)),
        Err(error) if error.kind() == ErrorKind::OutOfMemory => Err(AllocError),
        Err(_) => Ok(None),
    }
}
