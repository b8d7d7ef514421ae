//! The program `copar`: it runs the words of its command line over the files of the system.
#![tactic(auto)]

use copar_program::{exit_code, program};
use std::process::ExitCode;

fn main(rt: HostRuntime) -> ExitCode {
    exit_code(program(&rt, rt.stdout(), rt.stderr()))
}
