// The words as one simple command, by clap.
ghost use Rattle.std.specs.Prelude.{◌≡◌, ◌⊎◌, [], false, map, unwrap_or, bytes_eq, codes, IfOk, IfErr, Some, None};
ghost use Rattle.std.specs.Option.{option_map_or};
ghost use Rattle.clap.specs.Words.{all_of, app_of, first_of, found_of, kind_of, rows_of, rule_of};
ghost use Rattle.command_line.specs.Parser.{copar_app, action_rule, file_rule, rest_rule, stats_rule};
ghost use Rattle.command_line.specs.Lines.{line_of};
ghost use Rattle.command_line.specs.Plain.{line_with};

use crate::WordList;
use clap::error::ErrorKind;
use clap::{Arg, ArgAction, ArgMatches, Command, Error};
use std::alloc::{AllocError, Global};

/// The version of the program.
const VERSION: &str = "0.1.0";

/// What the program does.
const ABOUT: &str = "Minimise systems of finite states, tell why two states differ, and check
anybody's answer.";

/// The forms of the command line.
const USAGE: &str = "copar ACTION FILE [REST]... [--stats]";

/// Each command, with an example.
const COMMANDS: &str = "Commands, each with an example:
  blocks FILE                      for each state the first one equivalent to it
        copar blocks doors.txt
  minimise FILE                    the file with one state for each block
        copar minimise doors.txt
  explain FILE STATE STATE ...     why the two states of each pair differ
        copar explain doors.txt open shut
  certify FILE                     the blocks, each with a formula that says why
        copar certify doors.txt
  check FILE FORMULAS STATE ...    whether each formula holds at each state
        copar check doors.txt answer.txt open shut
  verify FILE ANSWER               whether the blocks and formulas are right
        copar verify doors.txt answer.txt
  trial KIND SEED SIZE             the counts of a drawn system of the kind lts,
                                   chain, sums or dfa, with 1 to 200000 states
        copar trial lts 7 20000

The first line of a file is a functor, and each other line is a state: its name,
a colon and its structure. So doors.txt may have these lines:
  P X
  open: {shut}
  ajar: {shut}
  shut: {}
A name that begins with `-` stands behind the word `--`. The exit status is 0
where the output is whole, 1 where verify finds an answer wrong, and 2 to 12
where there is no output; then a line on the error output says why.";

/// The parts of a command: the action, the file, the further words, and whether the flag is given.
#[derive(Drop)]
pub struct Line<'a> {
    pub action: &'a str,
    pub file: &'a str,
    pub rest: Vec<&'a str>,
    pub stats: bool,
}

/// The word that names the command, which is required.
fn action<'a>(alloc: Global) -> Arg<'a>
    ensures rule { rule_of result ≡ action_rule }
    ensures local { result.global ≡ false }
{
    Arg::new(alloc, "ACTION")
        .required(true)
        .action(ArgAction::Set)
        .help("What to do: one of the commands below")
}

/// The name of the file, which is required.
fn file<'a>(alloc: Global) -> Arg<'a>
    ensures rule { rule_of result ≡ file_rule }
    ensures local { result.global ≡ false }
{
    Arg::new(alloc, "FILE")
        .required(true)
        .action(ArgAction::Set)
        .help("The file with the system; for trial, the kind")
}

/// Any number of further words.
fn rest<'a>(alloc: Global) -> Arg<'a>
    ensures rule { rule_of result ≡ rest_rule }
    ensures local { result.global ≡ false }
{
    Arg::new(alloc, "REST")
        .action(ArgAction::Append)
        .help("What else the command takes")
}

/// The flag for the line of statistics.
fn stats<'a>(alloc: Global) -> Arg<'a>
    ensures rule { rule_of result ≡ stats_rule }
    ensures local { result.global ≡ false }
{
    Arg::new(alloc, "stats")
        .long("stats")
        .action(ArgAction::SetTrue)
        .help("Add a line with the numbers of structures, edges and steps")
}

/// The command line `ACTION FILE REST.. --stats`.
fn command<'a>(alloc: Global) -> Result<Command<'a>, AllocError>
    ensures { IfOk result (λ command. app_of command ≡ copar_app) }
{
    Command::new(alloc, "copar")
        .no_binary_name(true)
        .version(VERSION)
        .about(ABOUT)
        .override_usage(USAGE)
        .after_help(COMMANDS)
        .arg(action(alloc))?
        .arg(file(alloc))?
        .arg(rest(alloc))?
        .arg(stats(alloc))
}

/// The first value of an argument, and no byte where it has none.
fn first_value<'a>(matches: &ArgMatches<'a>, id: &str) -> &'a str
    ensures { result.now ≡ unwrap_or (first_of id.now (rows_of (found_of matches.now))) [] }
{
    match matches.get_str(id) {
        Some(value) => value,
        None => "",
    }
}

/// All values of an argument.
fn all_values<'a>(
    alloc: Global,
    matches: &ArgMatches<'a>,
    id: &str,
) -> Result<Vec<&'a str>, AllocError>
    ensures { IfOk result (λ values. map (λ word. word.now) values.items
        ≡ unwrap_or (all_of id.now (rows_of (found_of matches.now))) []) }
{
    match matches.get_strs(id) {
        Some(values) => Vec::from_slice(alloc, values),
        None => Ok(Vec::new(alloc)),
    }
}

/// Whether a flag is given.
fn has_flag(matches: &ArgMatches, id: &str) -> bool
    ensures { result ≡ option_map_or (bytes_eq (codes "true"))
        (first_of id.now (rows_of (found_of matches.now))) false }
{
    match matches.get_str(id) {
        Some(value) => "true" == value,
        None => false,
    }
}

/// Reads the words. The error says what is wrong with them, or that memory was wanting.
pub fn parts_of<'a>(alloc: Global, words: &'a WordList) -> Result<Line<'a>, Error>
    ensures taken { IfOk result (λ line. line_of words.now ≡ Some (line_with line.action.now
        line.file.now (map (λ word. word.now) line.rest.items) line.stats)) }
    ensures refused { IfErr result (λ error.
        (kind_of error ≡ ErrorKind.OutOfMemory) ⊎ (line_of words.now ≡ None)) }
{
    let command = command(alloc)?;
    let matches = match command.try_get_matches_from(words.texts()) {
        Ok(matches) => matches,
        Err(error) => return Err(error),
    };
    Ok(Line {
        action: first_value(&matches, "ACTION"),
        file: first_value(&matches, "FILE"),
        rest: all_values(alloc, &matches, "REST")?,
        stats: has_flag(&matches, "stats"),
    })
}
