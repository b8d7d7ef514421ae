//! Files at each limit and one past it, every prefix of a file, and outsides that fail at each of
//! their calls: what a run gives for each. It was worked out by hand from the rules of the format.

use crate::tables::{DRINKS, FOUR};
use crate::tests::{by_thousands, run_in, run_over};
use copar_run::Status;
use outside::MemFolder;
use std::alloc::{AllocError, Global};
use std::test::Fail;
use typing::TypeKind;

const GRAMMAR_1: Status = Status::Grammar { line: 1 };

const GRAMMAR_2: Status = Status::Grammar { line: 2 };

const LOOP: &[u8] = b"a a\n";

/// A file, and how a run of `blocks` on it ends and prints. The file is a front, so many times what
/// stands before its core, the core, as many times what stands after it, and a line feed.
type Repeated = (
    &'static [u8],
    u32,
    &'static [u8],
    &'static [u8],
    &'static [u8],
    Status,
    &'static [u8],
);

/// Files at each limit, and one past it.
const LIMITS: &[Repeated] = &[
    // the depth of a functor
    (b"", 31, b"P", b"X", b"", Status::Done, b""),
    (b"", 32, b"P", b"X", b"", GRAMMAR_1, b""),
    // open parentheses of a functor
    (b"", 32, b"(", b"X", b")", Status::Done, b""),
    (b"", 33, b"(", b"X", b")", GRAMMAR_1, b""),
    (b"", 32, b"Z^(", b"X", b")", GRAMMAR_1, b""),
    (b"", 31, b"Z^(", b"X", b")", Status::Done, b""),
    (b"", 100_000, b"(", b"X", b")", GRAMMAR_1, b""),
    (b"", 100_000, b"P", b"X", b"", GRAMMAR_1, b""),
    // open parentheses of a structure, and open indices
    (b"X\na: ", 64, b"(", b"a", b")", Status::Done, LOOP),
    (b"X\na: ", 65, b"(", b"a", b")", GRAMMAR_2, b""),
    (b"X\na: ", 100_000, b"(", b"a", b")", GRAMMAR_2, b""),
    (b"X\na: ", 65, b"inj 0 ", b"a", b"", GRAMMAR_2, b""),
    (b"X\na: ", 100_000, b"{", b"", b"", GRAMMAR_2, b""),
    // labels, and their numbers
    (b"65536\na: 65535", 0, b"", b"", b"", Status::Done, LOOP),
    (b"65537", 0, b"", b"", b"", GRAMMAR_1, b""),
    (b"", 100_000, b"9", b"", b"", GRAMMAR_1, b""),
    (b"", 100_000, b"0", b"2", b"", Status::Done, b""),
    (b"0", 0, b"", b"", b"", GRAMMAR_1, b""),
    (b"{a,b,a}", 0, b"", b"", b"", GRAMMAR_1, b""),
    (b"{inj}", 0, b"", b"", b"", GRAMMAR_1, b""),
    (b"P", 0, b"", b"", b"", GRAMMAR_1, b""),
    // nodes of a functor
    (b"X", 254, b"+X", b"", b"", Status::Done, b""),
    (b"X", 255, b"+X", b"", b"", GRAMMAR_1, b""),
    (b"X", 100_000, b"+X", b"", b"", GRAMMAR_1, b""),
    // whole numbers
    (b"N\na: 1099511627776", 0, b"", b"", b"", Status::Done, LOOP),
    (
        b"N\na: 1099511627777",
        0,
        b"",
        b"",
        b"",
        Status::WeightBound { line: 2 },
        b"",
    ),
    (
        b"N\na: ",
        100_000,
        b"9",
        b"",
        b"",
        Status::WeightBound { line: 2 },
        b"",
    ),
    (b"N\na: ", 100_000, b"0", b"7", b"", Status::Done, LOOP),
    (
        b"N\na: -1",
        0,
        b"",
        b"",
        b"",
        Status::TypeFault {
            line: 2,
            kind: TypeKind::NotALabel,
        },
        b"",
    ),
    // bytes that begin no token
    (b"P X\na: {\r}", 0, b"", b"", b"", GRAMMAR_2, b""),
    (b"\xef\xbb\xbfP X", 0, b"", b"", b"", GRAMMAR_1, b""),
    (b"P X\na: {}", 100_000, b"\x00", b"", b"", GRAMMAR_2, b""),
];

/// The file of a row.
fn repeated(alloc: Global, row: &Repeated) -> Result<Vec<u8>, AllocError> {
    let (front, times, before, core, after, _, _) = row;
    let mut file = Vec::from_slice(alloc, front)?;
    for _ in 0..*times {
        file.extend_from_slice(before)?;
    }
    file.extend_from_slice(core)?;
    for _ in 0..*times {
        file.extend_from_slice(after)?;
    }
    file.push(b'\n')?;
    Ok(file)
}

#[test]
fn files_at_each_limit_are_taken_and_one_past_it_refused(rt: HostRuntime) -> Result<(), Fail> {
    let alloc = rt.alloc();
    let mut number = 0u32;
    for row in LIMITS {
        let (_, _, _, _, _, status, out) = row;
        let file = repeated(alloc, row)?;
        let folder = by_thousands(alloc, &file, &[])?;
        let seen = run_in(alloc, "blocks", folder, &[], &[])?;
        assert_eq!(rt; seen.status, *status, "row {number}");
        assert_eq!(rt; seen.out.bytes(), *out, "row {number}");
        number = number.saturating_add(1);
    }
    Ok(())
}

const FIVE: &[u8] = b"idle idle\nready ready\nserved idle\nidle2 idle\nready2 ready\n";

const SIX: &[u8] =
    b"idle idle\nready ready\nserved idle\nidle2 idle\nready2 ready\nbroken broken\n";

const UNKNOWN_4: Status = Status::TypeFault {
    line: 4,
    kind: TypeKind::UnknownState,
};

const UNKNOWN_5: Status = Status::TypeFault {
    line: 5,
    kind: TypeKind::UnknownState,
};

const UNKNOWN_6: Status = Status::TypeFault {
    line: 6,
    kind: TypeKind::UnknownState,
};

/// The prefixes of the file of the drinks machine, from the empty one on: so many of them one after
/// another, how a run on each ends, and what it prints. Its lines have 18, 20, 0, 41, 27, 43, 42,
/// 40 and 10 bytes before their CR and LF. A line of a state is none until its last brace, and then
/// the first line decides that has a state without a line.
const PREFIXES: &[(usize, Status, &[u8])] = &[
    (20, GRAMMAR_1, b""),
    (20, GRAMMAR_2, b""),
    (5, Status::Done, b""),
    (40, Status::Grammar { line: 4 }, b""),
    (3, UNKNOWN_4, b""),
    (26, Status::Grammar { line: 5 }, b""),
    (3, UNKNOWN_5, b""),
    (42, Status::Grammar { line: 6 }, b""),
    (3, UNKNOWN_6, b""),
    (41, Status::Grammar { line: 7 }, b""),
    (3, UNKNOWN_6, b""),
    (39, Status::Grammar { line: 8 }, b""),
    (3, Status::Done, FIVE),
    (9, Status::Grammar { line: 9 }, b""),
    (3, Status::Done, SIX),
];

#[test]
fn every_prefix_of_a_file_ends_as_its_lines_say(rt: HostRuntime) -> Result<(), Fail> {
    let alloc = rt.alloc();
    let mut length = 0usize;
    for (times, status, out) in PREFIXES {
        for _ in 0..*times {
            let file = DRINKS.get(..length).unwrap_or(b"");
            let folder = by_thousands(alloc, file, &[])?;
            let seen = run_in(alloc, "blocks", folder, &[], &[])?;
            assert_eq!(rt; seen.status, *status, "{length} bytes");
            assert_eq!(rt; seen.out.bytes(), *out, "{length} bytes");
            length = length.saturating_add(1);
        }
    }
    // the last prefix was the whole file
    assert_eq!(rt; length, DRINKS.len() + 1);
    Ok(())
}

/// A distribution that does not sum to 1.
const SHORT: &[u8] = b"D X\na: {a: 1/2, b: 1/3}\nb: {b: 1}\n";

/// Words, the files `F` and `G`, and the status and the line of the run. No file has the name `H`,
/// and nothing is printed.
type Refusal = (
    &'static [&'static str],
    &'static [u8],
    &'static [u8],
    Status,
    &'static [u8],
);

/// Faults in both files, of which the first in the order of refusals is told.
const ORDER: &[Refusal] = &[
    // the first file is not there, or is too broken to be asked about the second
    (
        &["check", "H", "G", "a"],
        FOUR,
        b"f9",
        Status::ReadFault,
        b"copar: read fault\n",
    ),
    (
        &["verify", "H", "H"],
        FOUR,
        b"",
        Status::ReadFault,
        b"copar: read fault\n",
    ),
    (
        &["check", "F", "G", "zz"],
        b"P X\na: {",
        b"f9",
        Status::Grammar { line: 2 },
        b"copar: grammar fault on line 2\n",
    ),
    (
        &["verify", "F", "G"],
        b"P X\na: {",
        b"f9",
        Status::Grammar { line: 2 },
        b"copar: grammar fault on line 2\n",
    ),
    (
        &["verify", "F", "H"],
        b"# nothing\n",
        b"",
        Status::Grammar { line: 2 },
        b"copar: grammar fault on line 2\n",
    ),
    (
        &["check", "F", "H", "zz"],
        b"P X\na: {zz}\n",
        b"",
        Status::TypeFault {
            line: 2,
            kind: TypeKind::UnknownState,
        },
        b"copar: type fault on line 2: unknown state\n",
    ),
    (
        &["verify", "F", "G"],
        b"N\na: 1099511627777\n",
        b"f9",
        Status::WeightBound { line: 2 },
        b"copar: weight bound on line 2\n",
    ),
    (
        &["check", "F", "H", "a"],
        SHORT,
        b"",
        Status::SumFault { line: 2 },
        b"copar: distribution sum on line 2\n",
    ),
    (
        &["verify", "F", "H"],
        SHORT,
        b"",
        Status::SumFault { line: 2 },
        b"copar: distribution sum on line 2\n",
    ),
    // then the words, and only then the second file
    (
        &["check", "F", "H", "a", "zz", "b", "yy"],
        FOUR,
        b"",
        Status::UnknownState { place: 2 },
        b"copar: unknown state zz\n",
    ),
    (
        &["check", "F", "G", "zz"],
        FOUR,
        b"f9",
        Status::UnknownState { place: 1 },
        b"copar: unknown state zz\n",
    ),
    (
        &["check", "F", "H", "a"],
        FOUR,
        b"",
        Status::ReadFault,
        b"copar: read fault\n",
    ),
    (
        &["verify", "F", "H"],
        FOUR,
        b"",
        Status::ReadFault,
        b"copar: read fault\n",
    ),
    // a line that is none comes before a modality that does not fit, wherever they stand
    (
        &["check", "F", "G", "a"],
        FOUR,
        b"f0 = true\nf1 = at 9 {2} f0 f0\nf2 = not",
        Status::AnswerText { line: 3 },
        b"copar: answer text on line 3\n",
    ),
    (
        &["verify", "F", "G"],
        FOUR,
        b"f0 = true\nf1 = at 9 {2} f0 f0\nblock f0 zz\n",
        Status::AnswerText { line: 2 },
        b"copar: answer text on line 2\n",
    ),
    // the file of states is no answer, and no second file is a file of states
    (
        &["verify", "F", "F"],
        FOUR,
        b"",
        Status::AnswerText { line: 1 },
        b"copar: answer text on line 1\n",
    ),
    (
        &["verify", "G", "F"],
        FOUR,
        b"f0 = true\n",
        Status::Grammar { line: 1 },
        b"copar: grammar fault on line 1\n",
    ),
];

#[test]
fn the_first_fault_of_two_files_is_told(rt: HostRuntime) -> Result<(), Fail> {
    let alloc = rt.alloc();
    for (words, first, second, status, line) in ORDER {
        let mut folder = by_thousands(alloc, first, &[])?;
        folder.add("G", second)?;
        let seen = run_over(alloc, 1000, words, folder, &[], &[])?;
        assert_eq!(rt; seen.status, *status, "{words:?}");
        assert_eq!(rt; seen.out.bytes(), b"".as_slice(), "{words:?}");
        assert_eq!(rt; seen.err.bytes(), *line, "{words:?}");
    }
    Ok(())
}

/// Words, the numbers of the failing reads, writes and lines, and how the run ends and writes. The
/// file `F` has four states, and `G` one formula; both are read by one call each, and one that
/// finds the end.
type Failing = (
    &'static [&'static str],
    &'static [u64],
    &'static [u64],
    &'static [u64],
    Status,
    &'static [u8],
    &'static [u8],
);

/// Outsides that fail at one of their calls.
const FAILING: &[Failing] = &[
    // the reads 0 and 1 are of the first file, 2 and 3 of the second, and there is no further one
    (
        &["check", "F", "G", "a"],
        &[0],
        &[],
        &[],
        Status::ReadFault,
        b"",
        b"copar: read fault\n",
    ),
    (
        &["check", "F", "G", "a"],
        &[1],
        &[],
        &[],
        Status::ReadFault,
        b"",
        b"copar: read fault\n",
    ),
    (
        &["check", "F", "G", "a"],
        &[2],
        &[],
        &[],
        Status::ReadFault,
        b"",
        b"copar: read fault\n",
    ),
    (
        &["check", "F", "G", "a"],
        &[3],
        &[],
        &[],
        Status::ReadFault,
        b"",
        b"copar: read fault\n",
    ),
    (
        &["check", "F", "G", "a"],
        &[4, 5, 6],
        &[],
        &[],
        Status::Done,
        b"a f0 true\n",
        b"",
    ),
    (
        &["verify", "F", "G"],
        &[2],
        &[],
        &[],
        Status::ReadFault,
        b"",
        b"copar: read fault\n",
    ),
    (
        &["verify", "F", "G"],
        &[3],
        &[],
        &[],
        Status::ReadFault,
        b"",
        b"copar: read fault\n",
    ),
    // no read of the second file where a word names no state
    (
        &["check", "F", "G", "zz"],
        &[2, 3],
        &[],
        &[],
        Status::UnknownState { place: 1 },
        b"",
        b"copar: unknown state zz\n",
    ),
    // a write takes four bytes: a front stands where one fails, and the status tells it
    (
        &["check", "F", "G", "a"],
        &[],
        &[0],
        &[],
        Status::WriteFault,
        b"",
        b"copar: write fault\n",
    ),
    (
        &["check", "F", "G", "a"],
        &[],
        &[2],
        &[],
        Status::WriteFault,
        b"a f0 tru",
        b"copar: write fault\n",
    ),
    (
        &["verify", "F", "G"],
        &[],
        &[],
        &[],
        Status::No,
        b"wrong missing a\n",
        b"",
    ),
    (
        &["verify", "F", "G"],
        &[],
        &[1],
        &[],
        Status::WriteFault,
        b"wron",
        b"copar: write fault\n",
    ),
    (
        &["explain", "F", "a", "b"],
        &[],
        &[3],
        &[],
        Status::WriteFault,
        b"equivalent a",
        b"copar: write fault\n",
    ),
    (
        &["certify", "F"],
        &[],
        &[0],
        &[],
        Status::WriteFault,
        b"",
        b"copar: write fault\n",
    ),
    // what fails on `err` changes no status
    (
        &["certify", "F"],
        &[],
        &[0],
        &[0],
        Status::WriteFault,
        b"",
        b"",
    ),
    (
        &["verify", "F", "F"],
        &[],
        &[],
        &[0],
        Status::AnswerText { line: 1 },
        b"",
        b"",
    ),
    (
        &["verify", "F", "F"],
        &[],
        &[],
        &[1],
        Status::AnswerText { line: 1 },
        b"",
        b"copar: answer text on line ",
    ),
    (
        &["check", "F", "H", "a"],
        &[],
        &[],
        &[0],
        Status::ReadFault,
        b"",
        b"",
    ),
    (
        &["check", "F", "G", "zz"],
        &[],
        &[],
        &[1],
        Status::UnknownState { place: 1 },
        b"",
        b"copar: unknown state ",
    ),
    (&["frobnicate"], &[0], &[0], &[0], Status::Usage, b"", b""),
];

#[test]
fn a_failing_call_ends_the_run_with_its_status(rt: HostRuntime) -> Result<(), Fail> {
    let alloc = rt.alloc();
    for (words, reads, writes, lines, status, out, err) in FAILING {
        let mut folder = by_thousands(alloc, FOUR, reads)?;
        folder.add("G", b"f0 = true\n")?;
        let seen = run_over(alloc, 1000, words, folder, writes, lines)?;
        assert_eq!(rt; seen.status, *status, "{words:?} {reads:?} {writes:?}");
        assert_eq!(rt; seen.out.bytes(), *out, "{words:?} {reads:?} {writes:?}");
        assert_eq!(rt; seen.err.bytes(), *err, "{words:?} {reads:?} {writes:?}");
    }
    Ok(())
}

#[test]
fn a_file_read_in_part_and_a_complaint_lost(rt: HostRuntime) -> Result<(), Fail> {
    let alloc = rt.alloc();
    // pieces of three bytes, of which the third does not come
    let mut folder = MemFolder::new(alloc, 3, &[2])?;
    folder.add("F", FOUR)?;
    let seen = run_in(alloc, "blocks", folder, &[], &[])?;
    assert_eq!(rt; seen.status, Status::ReadFault);
    assert_eq!(rt; seen.out.bytes(), b"".as_slice());
    // the first write to `err` fails
    let folder = by_thousands(alloc, SHORT, &[])?;
    let seen = run_in(alloc, "blocks", folder, &[], &[0])?;
    assert_eq!(rt; seen.status, Status::SumFault { line: 2 });
    assert_eq!(rt; seen.out.bytes(), b"".as_slice());
    assert_eq!(rt; seen.err.bytes(), b"".as_slice());
    Ok(())
}

/// So many line feeds.
fn feeds(alloc: Global, size: usize) -> Result<Vec<u8>, AllocError> {
    vec![in alloc; b'\n'; size]
}

/// Words, and the status of their run where `G` has one byte more than a file may have.
const PAST_THE_LENGTH: &[(&[&str], Status)] = &[
    (&["check", "F", "G", "a"], Status::TooLong),
    (&["verify", "F", "G"], Status::TooLong),
    (&["verify", "G", "H"], Status::TooLong),
    (
        &["check", "F", "G", "zz"],
        Status::UnknownState { place: 1 },
    ),
];

#[test]
fn either_file_may_be_too_long(rt: HostRuntime) -> Result<(), Fail> {
    let alloc = rt.alloc();
    let long = feeds(alloc, 67_108_865)?;
    for (words, status) in PAST_THE_LENGTH {
        let mut folder = MemFolder::new(alloc, 1_000_000, &[])?;
        folder.add("F", FOUR)?;
        folder.add("G", &long)?;
        let seen = run_over(alloc, 100, words, folder, &[], &[])?;
        assert_eq!(rt; seen.status, *status, "{words:?}");
        assert_eq!(rt; seen.out.bytes(), b"".as_slice(), "{words:?}");
    }
    Ok(())
}
