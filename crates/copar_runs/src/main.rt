//! Command lines of copar over real files, one after another: each is printed, then what it wrote
//! to either writer, and the number that the program would end with.
#![tactic(auto)]

use copar_program::ran;
use copar_run::WordList;
use std::io;

/// The command lines. The files lie beside this program where it is run; `absent` is none of them.
const LINES: &[&[&str]] = &[
    &["blocks", "game.copar"],
    &["minimise", "game.copar"],
    &["minimise", "long.copar"],
    &["blocks", "absent"],
    &["blocks", "."],
    &["blocks", "no_functor.copar"],
    &["minimise", "no_such_state.copar"],
    &["blocks", "unformed.copar"],
    &["blocks", "past_bound.copar"],
    &["blocks", "short_sum.copar"],
    &["blocks", "vending.copar"],
    &["minimise", "vending.copar"],
    &["blocks", "even.copar"],
    &["minimise", "even.copar"],
    &["blocks", "die.copar"],
    &["minimise", "die.copar"],
    &["blocks", "cancel.copar"],
    &["minimise", "cancel.copar"],
    &["blocks", "segala.copar"],
    &["minimise", "segala.copar"],
    &["blocks", "game.copar", "--stats"],
    &["explain", "game.copar", "start", "left", "left", "right"],
    &["explain", "game.copar", "start", "nowhere"],
    &["certify", "game.copar"],
    &["check", "game.copar", "game.answer", "start", "left"],
    &["verify", "game.copar", "game.answer"],
    &["verify", "game.copar", "game.wrong"],
    &["verify", "game.copar", "unformed.copar"],
    &["verify", "game.copar", "absent"],
    &["explain", "vending.copar", "ready", "only_tea"],
    &["certify", "vending.copar"],
    &["verify", "vending.copar", "vending.answer"],
    &["trial", "dfa", "0", "1"],
];

fn main(rt: HostRuntime) -> io::Result<()> {
    for line in LINES {
        let mut words = WordList::new(rt.alloc());
        print!(rt; "$ copar")?;
        for word in *line {
            print!(rt; " {word}")?;
            words.add(word)?;
        }
        println!(rt; "")?;
        let status = ran(&rt, &words, rt.stdout(), rt.stdout());
        println!(rt; "ends with {}", status.code())?;
    }
    Ok(())
}
