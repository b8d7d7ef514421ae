//! Rows of trees against terms. Each line of the input is a functor, `|`, and structure lines with
//! `;` between them, as `P X | a: {b, a}; b: {}`. The answer is the common denominator and the
//! value of each line, or the first fault: a misfit with its line and kind, a bound, or a sum.
#![tactic(auto)]

mod fault;
mod row;
mod value_text;

use row::answer;
use std::io;

fn main(rt: HostRuntime) -> io::Result<()> {
    for line in rt.lines(rt.alloc()) {
        let line = line?;
        let row = line.as_bytes();
        if row.is_empty() || row[0] == b'#' {
            continue;
        }
        match answer(rt.alloc(), row) {
            Ok(text) => println!(rt; "{text}")?,
            Err(fault) => println!(rt; "{fault}")?,
        }
    }
    Ok(())
}
