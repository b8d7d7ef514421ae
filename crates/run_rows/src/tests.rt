//! Runs over a folder and sinks in memory. What is expected was worked out by hand from the rules
//! of the format, and from the texts that are promised.
ghost use Rattle.std.specs.Prelude.{◌≡◌, ◌<◌};

use crate::tables::{
    COMPLAINTS, FOUR, LISTED, MERGED, MINIMISED, MISFITS, PAST_BOUND, REFUSED, SHORT, TAKEN,
    UNFORMED, WITHOUT_FUNCTOR,
};
use copar_run::{Status, WordList, run};
use outside::{MemFolder, MemSink, Steps};
use std::alloc::{AllocError, Global};
use std::marker::Brand;
use std::process::Abort;
use std::sync::ledger::{Blank, Ledger};
use std::test::Fail;
use typing::TypeKind;

/// What a run did.
#[derive(Drop)]
pub(crate) struct Seen {
    pub status: Status,
    pub out: MemSink,
    pub err: MemSink,
}

fn words_of(alloc: Global, words: &[&str]) -> Result<WordList, AllocError> {
    let mut list = WordList::new(alloc);
    for word in words {
        list.add(word)?;
    }
    Ok(list)
}

fn counted<L: Ledger>(
    alloc: Global,
    words: &WordList,
    folder: &mut MemFolder,
    out: &mut MemSink,
    err: &mut MemSink,
    blank: Blank,
) -> Status
    requires name { blank.name ≡ L.name }
    requires parts { blank.parts ≡ L.parts }
    requires some { 0 < L.parts }
{
    let mut steps = Steps::<L>::fresh(blank);
    run(alloc, words, folder, out, err, &mut steps)
}

/// A run of the command on F over this folder. The sink for the output takes at most 4 bytes at a
/// write.
pub(crate) fn run_in(
    alloc: Global,
    command: &str,
    folder: MemFolder,
    failing_writes: &[u64],
    failing_lines: &[u64],
) -> Result<Seen, AllocError> {
    run_into(alloc, 1000, command, folder, failing_writes, failing_lines)
}

/// The same, where the sink for the output has so much room.
fn run_into(
    alloc: Global,
    room: usize,
    command: &str,
    folder: MemFolder,
    failing_writes: &[u64],
    failing_lines: &[u64],
) -> Result<Seen, AllocError> {
    let words: [&str; 2] = [command, "F"];
    run_over(alloc, room, &words, folder, failing_writes, failing_lines)
}

/// A run of these words over the folder. The sink for the output has so much room, and takes at
/// most 4 bytes at a write.
pub(crate) fn run_over(
    alloc: Global,
    room: usize,
    words: &[&str],
    mut folder: MemFolder,
    failing_writes: &[u64],
    failing_lines: &[u64],
) -> Result<Seen, AllocError> {
    let words = words_of(alloc, words)?;
    let mut out = MemSink::new(alloc, room, 4, failing_writes)?;
    let mut err = MemSink::new(alloc, 4000, 1000, failing_lines)?;
    let blank = Blank::new(1);
    let status = counted::<Brand>(alloc, &words, &mut folder, &mut out, &mut err, blank);
    Ok(Seen { status, out, err })
}

/// A folder with this file `F`, which is read one byte at a time.
fn by_bytes(alloc: Global, file: &[u8]) -> Result<MemFolder, AllocError> {
    let mut folder = MemFolder::new(alloc, 1, &[])?;
    folder.add("F", file)?;
    Ok(folder)
}

/// A folder with this file `F`, of which at most 1,000 bytes are read at a time.
pub(crate) fn by_thousands(
    alloc: Global,
    file: &[u8],
    failing: &[u64],
) -> Result<MemFolder, AllocError> {
    let mut folder = MemFolder::new(alloc, 1000, failing)?;
    folder.add("F", file)?;
    Ok(folder)
}

/// Asserts how runs of the command on the file end, and what they write.
fn ends(
    rt: &impl Abort,
    alloc: Global,
    command: &str,
    about: &str,
    file: &[u8],
    status: Status,
    out: &[u8],
) -> Result<(), AllocError> {
    let seen = run_in(alloc, command, by_bytes(alloc, file)?, &[], &[])?;
    assert_eq!(rt; seen.status, status, "{command}, {about}");
    assert_eq!(rt; seen.out.bytes(), out, "{command}, {about}");
    let again = run_in(alloc, command, by_thousands(alloc, file, &[])?, &[], &[])?;
    assert_eq!(rt; again.status, status, "{command}, {about}, by thousands");
    assert_eq!(rt; again.out.bytes(), out, "{command}, {about}, by thousands");
    Ok(())
}

#[test]
fn blocks_lists_the_first_state_of_each_block(rt: HostRuntime) -> Result<(), Fail> {
    for (about, file, out) in LISTED {
        ends(&rt, rt.alloc(), "blocks", about, file, Status::Done, out)?;
    }
    Ok(())
}

#[test]
fn minimise_prints_one_state_for_each_block(rt: HostRuntime) -> Result<(), Fail> {
    for (about, file, out) in MINIMISED {
        ends(&rt, rt.alloc(), "minimise", about, file, Status::Done, out)?;
        // and prints the same bytes where it is given what it printed
        ends(&rt, rt.alloc(), "minimise", about, out, Status::Done, out)?;
    }
    Ok(())
}

#[test]
fn each_fault_is_told_with_its_line(rt: HostRuntime) -> Result<(), Fail> {
    for command in ["blocks", "minimise"] {
        for (about, file, line) in WITHOUT_FUNCTOR {
            let status = Status::Grammar { line: *line };
            ends(&rt, rt.alloc(), command, about, file, status, b"")?;
        }
        for (about, file, line) in UNFORMED {
            let status = Status::Grammar { line: *line };
            ends(&rt, rt.alloc(), command, about, file, status, b"")?;
        }
        for (about, file, line) in PAST_BOUND {
            let status = Status::WeightBound { line: *line };
            ends(&rt, rt.alloc(), command, about, file, status, b"")?;
        }
        for (about, file, line) in SHORT {
            let status = Status::SumFault { line: *line };
            ends(&rt, rt.alloc(), command, about, file, status, b"")?;
        }
        for (about, file, line, kind) in MISFITS {
            let status = Status::TypeFault {
                line: *line,
                kind: *kind,
            };
            ends(&rt, rt.alloc(), command, about, file, status, b"")?;
        }
    }
    Ok(())
}

#[test]
fn a_quotient_may_be_no_file_within_the_bounds(rt: HostRuntime) -> Result<(), Fail> {
    let (file, out) = MERGED;
    ends(
        &rt,
        rt.alloc(),
        "minimise",
        "merged",
        file,
        Status::Done,
        out,
    )?;
    Ok(())
}

#[test]
fn a_failing_outside_is_told(rt: HostRuntime) -> Result<(), Fail> {
    let alloc = rt.alloc();
    // the output sink fails at its write 1
    let seen = run_in(alloc, "blocks", by_thousands(alloc, FOUR, &[])?, &[1], &[])?;
    assert_eq!(rt; seen.status, Status::WriteFault);
    assert_eq!(rt; seen.out.bytes(), b"a a\n".as_slice());
    assert_eq!(rt; seen.err.bytes(), b"copar: write fault\n".as_slice());
    // the folder fails at its read 0, and at the last read of an empty file
    for file in [FOUR, b""] {
        let seen = run_in(alloc, "blocks", by_thousands(alloc, file, &[0])?, &[], &[])?;
        assert_eq!(rt; seen.status, Status::ReadFault);
        assert_eq!(rt; seen.out.bytes(), b"".as_slice());
        assert_eq!(rt; seen.err.bytes(), b"copar: read fault\n".as_slice());
    }
    // the folder has no such file
    let mut folder = MemFolder::new(alloc, 1000, &[])?;
    folder.add("G", FOUR)?;
    let seen = run_in(alloc, "blocks", folder, &[], &[])?;
    assert_eq!(rt; seen.status, Status::ReadFault);
    assert_eq!(rt; seen.out.bytes(), b"".as_slice());
    assert_eq!(rt; seen.err.bytes(), b"copar: read fault\n".as_slice());
    // an output without a byte makes no write
    let seen = run_in(
        alloc,
        "blocks",
        by_thousands(alloc, b"P X\n", &[])?,
        &[0],
        &[],
    )?;
    assert_eq!(rt; seen.status, Status::Done);
    assert_eq!(rt; seen.err.bytes(), b"".as_slice());
    Ok(())
}

#[test]
fn a_failing_line_changes_no_status(rt: HostRuntime) -> Result<(), Fail> {
    let alloc = rt.alloc();
    let fault = Status::TypeFault {
        line: 2,
        kind: TypeKind::UnknownState,
    };
    let fronts: [&[u8]; 4] = [
        b"",
        b"copar: type fault on line ",
        b"copar: type fault on line 2",
        b"copar: type fault on line 2: unknown state\n",
    ];
    let mut number = 0u64;
    for front in fronts {
        let folder = by_thousands(alloc, b"P X\na: {zz}\n", &[])?;
        let seen = run_in(alloc, "blocks", folder, &[], &[number])?;
        assert_eq!(rt; seen.status, fault, "where write {number} fails");
        assert_eq!(rt; seen.out.bytes(), b"".as_slice());
        assert_eq!(rt; seen.err.bytes(), front, "where write {number} fails");
        number = number.saturating_add(1);
    }
    Ok(())
}

/// A run of these words over a folder with the file `F` and one whose name begins with a dash.
fn run_words(alloc: Global, words: &[&str]) -> Result<Seen, AllocError> {
    let words = words_of(alloc, words)?;
    let mut folder = by_thousands(alloc, FOUR, &[])?;
    folder.add("-x", FOUR)?;
    let mut out = MemSink::new(alloc, 1000, 4, &[])?;
    let mut err = MemSink::new(alloc, 4000, 1000, &[])?;
    let blank = Blank::new(1);
    let status = counted::<Brand>(alloc, &words, &mut folder, &mut out, &mut err, blank);
    Ok(Seen { status, out, err })
}

#[test]
fn words_of_a_row_are_taken(rt: HostRuntime) -> Result<(), Fail> {
    for (words, status) in TAKEN {
        let seen = run_words(rt.alloc(), words)?;
        assert_eq!(rt; seen.status, *status, "{words:?}");
    }
    Ok(())
}

#[test]
fn words_of_no_row_are_refused_with_help(rt: HostRuntime) -> Result<(), Fail> {
    for words in REFUSED {
        let seen = run_words(rt.alloc(), words)?;
        assert_eq!(rt; seen.status, Status::Usage, "{words:?}");
        assert_eq!(rt; seen.out.bytes(), b"".as_slice(), "{words:?}");
        assert!(rt;
            seen.err.bytes().ends_with(b"equivalent open ajar\n"),
            "{words:?}"
        );
    }
    for (words, front) in COMPLAINTS {
        let seen = run_words(rt.alloc(), words)?;
        assert_eq!(rt; seen.status, Status::Usage, "{words:?}");
        assert!(rt; seen.err.bytes().starts_with(front), "{words:?}");
    }
    Ok(())
}

/// A file of a thousand states, of which each leads to itself, and its block list.
fn thousand(alloc: Global) -> Result<(Vec<u8>, Vec<u8>), AllocError> {
    let mut file = Vec::new(alloc);
    let mut list = Vec::new(alloc);
    file.extend_from_slice(b"P X\n")?;
    for i in 0..1000u32 {
        let line = format!(in alloc; "s{i}: {{s{i}}}\n")?;
        file.extend_from_slice(line.as_bytes())?;
        let line = format!(in alloc; "s{i} s0\n")?;
        list.extend_from_slice(line.as_bytes())?;
    }
    Ok((file, list))
}

#[test]
fn a_thousand_states_are_printed(rt: HostRuntime) -> Result<(), Fail> {
    let alloc = rt.alloc();
    let (file, list) = thousand(alloc)?;
    let folder = by_thousands(alloc, &file, &[])?;
    let seen = run_into(alloc, 100_000, "blocks", folder, &[], &[])?;
    assert_eq!(rt; seen.status, Status::Done);
    assert!(rt; seen.out.bytes() == list.as_slice());
    let folder = by_thousands(alloc, &file, &[])?;
    let seen = run_into(alloc, 100_000, "minimise", folder, &[], &[])?;
    assert_eq!(rt; seen.out.bytes(), b"P X\ns0: {s0}\n".as_slice());
    Ok(())
}

/// So many bytes.
fn all(alloc: Global, byte: u8, size: usize) -> Result<Vec<u8>, AllocError> {
    vec![in alloc; byte; size]
}

/// A run on a file of so many line feeds.
fn run_on_feeds(alloc: Global, size: usize) -> Result<Seen, AllocError> {
    let bytes = all(alloc, b'\n', size)?;
    let mut folder = MemFolder::new(alloc, 1_000_000, &[])?;
    folder.add("F", &bytes)?;
    drop(bytes);
    run_in(alloc, "blocks", folder, &[], &[])
}

#[test]
fn the_longest_file_has_67108864_bytes(rt: HostRuntime) -> Result<(), Fail> {
    let alloc = rt.alloc();
    let seen = run_on_feeds(alloc, 67_108_865)?;
    assert_eq!(rt; seen.status, Status::TooLong);
    assert_eq!(rt;
        seen.err.bytes(),
        b"copar: file longer than 67108864 bytes\n".as_slice()
    );
    let seen = run_on_feeds(alloc, 67_108_864)?;
    assert_eq!(rt; seen.status, Status::Grammar { line: 67_108_865 });
    assert_eq!(rt;
        seen.err.bytes(),
        b"copar: grammar fault on line 67108865\n".as_slice()
    );
    Ok(())
}
