//! Trials: the summary is what the other commands tell of the drawn text.

use crate::tests::{Seen, run_over};
use copar_run::Status;
use outside::MemFolder;
use std::alloc::{AllocError, Global};
use std::process::Abort;
use std::test::Fail;
use trial_texts::{TrialKind, trial_text};

/// The kinds with their words.
const KINDS: [(&str, TrialKind); 4] = [
    ("lts", TrialKind::Lts),
    ("chain", TrialKind::Chain),
    ("sums", TrialKind::Sums),
    ("dfa", TrialKind::Dfa),
];

/// A trial over a folder without a file.
fn trial(alloc: Global, kind: &str, seed: u64, size: u32) -> Result<Seen, AllocError> {
    let seed = format!(in alloc; "{seed}")?;
    let size = format!(in alloc; "{size}")?;
    let words = ["trial", kind, seed.as_str(), size.as_str()];
    run_over(
        alloc,
        1000,
        &words,
        MemFolder::new(alloc, 1000, &[])?,
        &[],
        &[],
    )
}

/// The blocks of a text, with the line of statistics.
fn blocks(alloc: Global, text: &[u8]) -> Result<Seen, AllocError> {
    let mut folder = MemFolder::new(alloc, 1000, &[])?;
    folder.add("F", text)?;
    run_over(
        alloc,
        1_000_000,
        &["blocks", "F", "--stats"],
        folder,
        &[],
        &[],
    )
}

/// The words of a line.
fn words(alloc: Global, line: &[u8]) -> Result<Vec<&[u8]>, AllocError> {
    line.split(|b| *b == b' ').collect(alloc)
}

/// The summary that a block list with its line of statistics gives: each state that is the first of
/// its block is listed with itself.
fn summary(alloc: Global, kind: &str, size: u32, list: &[u8]) -> Result<Vec<u8>, AllocError> {
    let mut count = 0u32;
    let mut last: &[u8] = b"";
    for line in list.split(|b| *b == b'\n') {
        if line.is_empty() {
            continue;
        }
        last = line;
        let parts = words(alloc, line)?;
        if parts.len() == 2 && parts[0] == parts[1] {
            count = count.saturating_add(1);
        }
    }
    let head = format!(in alloc; "kind {kind}\nstates {size}\nblocks {count}\n")?;
    let mut text = Vec::from_slice(alloc, head.as_bytes())?;
    // `# sorted n places m labels k`
    let parts = words(alloc, last)?;
    for (k, part) in parts.iter().enumerate() {
        if k > 0 {
            text.extend_from_slice(part)?;
            text.push(if k % 2 == 1 { b' ' } else { b'\n' })?;
        }
    }
    Ok(text)
}

#[test]
fn a_trial_counts_what_its_text_has(rt: HostRuntime) -> Result<(), Fail> {
    let alloc = rt.alloc();
    for (word, kind) in KINDS {
        for seed in [0u64, 1, 7, 18_446_744_073_709_551_615] {
            for size in [1u32, 2, 3, 40] {
                let text = trial_text(alloc, kind, seed, size)?;
                let list = blocks(alloc, &text)?;
                assert_eq!(rt; list.status, Status::Done, "{word} {seed} {size}");
                let wanted = summary(alloc, word, size, list.out.bytes())?;
                for _turn in 0..2u32 {
                    let seen = trial(alloc, word, seed, size)?;
                    assert_eq!(rt; seen.status, Status::Done, "{word} {seed} {size}");
                    assert_eq!(rt; seen.out.bytes(), wanted.as_slice(), "{word} {seed} {size}");
                    assert_eq!(rt; seen.err.bytes(), b"".as_slice());
                }
            }
        }
    }
    Ok(())
}

#[test]
fn the_smallest_automaton_has_one_block(rt: HostRuntime) -> Result<(), Fail> {
    let alloc = rt.alloc();
    assert_eq!(rt;
        trial_text(alloc, TrialKind::Dfa, 0, 1)?.as_slice(),
        b"2 x X^{a,b}\ns0: (1, {a: s0, b: s0})\n".as_slice()
    );
    let seen = trial(alloc, "dfa", 0, 1)?;
    let front = b"kind dfa\nstates 1\nblocks 1\nsorted 3\nplaces 4\nlabels ";
    assert!(rt; seen.out.bytes().starts_with(front));
    Ok(())
}
