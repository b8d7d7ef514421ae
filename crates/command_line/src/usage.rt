// What is said of words that make no request.
use crate::WordList;
use crate::parts::{Line, parts_of};
use clap::error::ErrorKind;
use std::alloc::{AllocError, Global};

/// The forms that are taken, and an example.
const FORMS: &str = "usage: copar blocks FILE [--stats]
       copar minimise FILE [--stats]
       copar explain FILE STATE STATE [STATE STATE].. [--stats]
       copar certify FILE [--stats]
       copar check FILE FORMULAS STATE..
       copar verify FILE ANSWER
       copar trial KIND SEED SIZE
  The file has a functor on its first line, and then a line for each state: its
  name, a colon, and its structure. Sets of states, as below, have the functor
  `P X`.
  blocks    prints for each state its name and the name of the first state that
            is equivalent to it
  minimise  prints the file with one state for each block, named by its first
            state
  explain   prints for each pair of states that they are equivalent, or a
            formula that holds at the first and fails at the second
  certify   prints each block with a formula that holds at exactly its states
  check     prints whether each formula of a second file holds at each of the
            states
  verify    prints whether the blocks and formulas of a second file are right
  trial     draws a system of 1 to 200000 states from a seed below 2^64, and
            prints its counts; the kind is lts, chain, sums or dfa
  --stats   adds a line with the numbers of structures, edges and steps
  A name that begins with `-` stands behind the word `--`.
example: where the file doors.txt has these lines,
    P X
    open: {shut}
    ajar: {shut}
    shut: {}
  the command `copar blocks doors.txt` prints
    open open
    ajar open
    shut shut
  the command `copar minimise doors.txt` prints
    P X
    open: {shut}
    shut: {}
  and the command `copar explain doors.txt open ajar` prints
    equivalent open ajar
";

/// What is wrong with words that make no request, the forms that are taken, and an example. Where
/// help or the version is asked for, that alone.
pub fn complaint(alloc: Global, words: &WordList) -> Result<String, AllocError> {
    let mut text = match parts_of(alloc, words) {
        Ok(line) => wrong_row(alloc, &line)?,
        Err(error) => {
            let text = format!(in alloc; "{error}")?;
            match error.kind() {
                ErrorKind::DisplayHelp | ErrorKind::DisplayVersion => return Ok(text),
                _ => text,
            }
        }
    };
    text.push_str(FORMS)?;
    Ok(text)
}

/// What keeps a line from being of a row of the table.
fn wrong_row(alloc: Global, line: &Line) -> Result<String, AllocError> {
    let action = line.action;
    let count = line.rest.len();
    match action {
        "blocks" | "minimise" | "certify" => {
            if count > 0 {
                return format!(in alloc;
                    "copar: the command {action} takes one file and no further word\n"
                );
            }
        }
        "explain" => {
            if count == 0 || count % 2 > 0 {
                return format!(in alloc;
                    "copar: the command explain takes a file and pairs of states\n"
                );
            }
        }
        "check" => {
            if count < 2 {
                return format!(in alloc;
                    "copar: the command check takes two files and at least one state\n"
                );
            }
        }
        "verify" => {
            if count != 1 {
                return format!(in alloc; "copar: the command verify takes two files\n");
            }
        }
        "trial" => {
            if count != 2 {
                return format!(in alloc;
                    "copar: the command trial takes a kind, a seed and a size\n"
                );
            }
        }
        _ => return format!(in alloc; "copar: no such command: {action}\n"),
    }
    if line.stats && (action == "check" || action == "verify" || action == "trial") {
        return format!(in alloc; "copar: the command {action} takes no --stats\n");
    }
    if action == "trial" {
        return format!(in alloc;
            "copar: a trial has a kind (lts, chain, sums or dfa), a seed below 2^64 and a size \
             from 1 to 200000\n"
        );
    }
    format!(in alloc; "copar: an empty word names no file and no state\n")
}
