//! Runs that explain, certify, check and verify: worked by hand, and over generated files, where
//! what one command prints is given to another.

use crate::families::FAMILIES;
use crate::generated::generated;
use crate::tables::FOUR;
use crate::tests::{Seen, run_over};
use copar_run::Status;
use outside::MemFolder;
use std::alloc::{AllocError, Global};
use std::process::Abort;
use std::test::Fail;

/// A right answer for the four states, and behind each further name what is changed in it.
const RIGHT: &[u8] = b"f0 = true
f1 = at 0 {2} f0 f0
f2 = not f1
f3 = at 0 {1} f2 f0
f4 = at 0 {1,2} f2 f0
block f3 a b
block f2 c
block f4 d
";

/// Words, the second file, and how the run ends, prints and complains. The first file has four
/// states.
type Row = (
    &'static [&'static str],
    &'static [u8],
    Status,
    &'static [u8],
    &'static [u8],
);

/// Explanations, and the lines of statistics.
const EXPLAINED: &[Row] = &[
    (
        &["explain", "F", "a", "b"],
        b"",
        Status::Done,
        b"equivalent a b\n",
        b"",
    ),
    (
        &["explain", "F", "a", "a"],
        b"",
        Status::Done,
        b"equivalent a a\n",
        b"",
    ),
    (
        &["explain", "F", "b", "a", "d", "d", "--stats"],
        b"",
        Status::Done,
        b"equivalent b a\nequivalent d d\n# sorted 4 places 4 labels 5\n",
        b"",
    ),
    (
        &["explain", "F", "a", "zz"],
        b"",
        Status::UnknownState { place: 1 },
        b"",
        b"copar: unknown state zz\n",
    ),
    (
        &["explain", "--stats", "F", "q", "zz"],
        b"",
        Status::UnknownState { place: 0 },
        b"",
        b"copar: unknown state q\n",
    ),
    (
        &["blocks", "F", "--stats"],
        b"",
        Status::Done,
        b"a a\nb a\nc c\nd d\n# sorted 4 places 4 labels 5\n",
        b"",
    ),
    (
        &["minimise", "--stats", "F"],
        b"",
        Status::Done,
        b"P X\na: {a}\nc: {}\nd: {a, c}\n# sorted 4 places 4 labels 5\n",
        b"",
    ),
];

/// Formulas at states.
const CHECKED: &[Row] = &[
    (
        &["check", "F", "G", "a", "c"],
        b"f0 = true\nf1 = at 0 {2} f0 f0\nseparates a c f1\n",
        Status::Done,
        b"a f0 true\na f1 true\nc f0 true\nc f1 false\n",
        b"",
    ),
    (
        &["check", "F", "G", "d"],
        b"# nothing\r\n",
        Status::Done,
        b"",
        b"",
    ),
    (
        &["check", "F", "H", "a"],
        b"",
        Status::ReadFault,
        b"",
        b"copar: read fault\n",
    ),
    (
        &["check", "F", "H", "a", "zz"],
        b"",
        Status::UnknownState { place: 2 },
        b"",
        b"copar: unknown state zz\n",
    ),
    (
        &["check", "F", "G", "a"],
        b"f0 = true\nf1 = at 0 =1 f0 f0\nf2 = not f3\n",
        Status::AnswerText { line: 3 },
        b"",
        b"copar: answer text on line 3\n",
    ),
    (
        &["check", "F", "G", "a"],
        b"f0 = true\n\nf1 = at 0 =1 f0 f0\n",
        Status::AnswerText { line: 3 },
        b"",
        b"copar: answer text on line 3\n",
    ),
];

/// Answers that are judged.
const JUDGED: &[Row] = &[
    (&["verify", "F", "G"], RIGHT, Status::Done, b"right\n", b""),
    (
        &["verify", "F", "G"],
        b"f0 = true\nf1 = at 0 {2} f0 f0\nf2 = not f1\nf3 = at 0 {1} f2 f0\n\
          f4 = at 0 {1,2} f2 f0\nblock f3 d b\nblock f2 c\nblock f4 a\n",
        Status::No,
        b"wrong unstable b d\n",
        b"",
    ),
    (
        &["verify", "F", "G"],
        b"f0 = true\nf1 = at 0 {2} f0 f0\nf2 = not f1\nf3 = at 0 {1} f2 f0\n\
          f4 = at 0 {1,2} f2 f0\nblock f2 a b\nblock f2 c\nblock f4 d\n",
        Status::No,
        b"wrong formula f2 a\n",
        b"",
    ),
    (
        &["verify", "F", "G"],
        b"f0 = true\nf1 = at 0 {2} f0 f0\nf2 = not f1\nf3 = at 0 {1} f2 f0\n\
          f4 = at 0 {1,2} f2 f0\nblock f3 a b\nblock f2 c\n",
        Status::No,
        b"wrong missing d\n",
        b"",
    ),
    (
        &["verify", "F", "G"],
        b"f0 = true\nf1 = at 0 {2} f0 f0\nf2 = not f1\nf3 = at 0 {1} f2 f0\n\
          f4 = at 0 {1,2} f2 f0\nblock f3 a b\nblock f2 c\nblock f4 d a\n",
        Status::No,
        b"wrong twice a\n",
        b"",
    ),
    (
        &["verify", "F", "G"],
        b"f0 = true\nf1 = at 0 {2} f0 f0\nf2 = not f1\nf3 = at 0 {1} f2 f0\n\
          f4 = at 0 {1,2} f2 f0\nblock f3 a a b\nblock f2 c\nblock f4 d\n",
        Status::No,
        b"wrong twice a\n",
        b"",
    ),
    (
        &["verify", "F", "G"],
        b"",
        Status::No,
        b"wrong missing a\n",
        b"",
    ),
    (
        &["verify", "F", "G"],
        b"f0 = true\nblock f0 a\nblock f0 b\nblock f0 c\nblock f0 d\n",
        Status::No,
        b"wrong formula f0 b\n",
        b"",
    ),
    (
        &["verify", "F", "G"],
        b"f0 = true\nf1 = at 0 {2} f0 f0\nf2 = not f1\nf3 = at 0 {1} f2 f0\n\
          f4 = at 0 {1,2} f2 f0\nf5 = and f3 f4\nblock f3 a b\nblock f2 c\nblock f4 d\n",
        Status::Done,
        b"right\n",
        b"",
    ),
    (
        &["verify", "F", "H"],
        b"",
        Status::ReadFault,
        b"",
        b"copar: read fault\n",
    ),
];

/// Second files with a bad line, and its number.
const BAD: &[(&[u8], u32)] = &[
    (b"f0 = true\nf1 = at 0 {2} f0 f1\n", 2),
    (b"f0 = true\nf1 = at 0 {2} f2 f0\nf2 = not f1\n", 2),
    (b"f00 = true\n", 1),
    (b"f0 = true\nf1 = at 0 {2,0} f0 f0\n", 2),
    (b"f0 = true\nf1 = not f0\nf2 = at 0 =1 f0 f0\n", 3),
    (b"f0 = true\nf1 = not f1\n", 2),
    (b"f0 = true\nf1 = at 1 {2} f0 f0\n", 2),
    (b"f0 = true\nblock f9 a b\n", 2),
    (b"f0 = true\nblock f0 a zz\n", 2),
    (b"f0 = true\nf1 = at 1 {2} f0 f0\nequivalent a b\n", 3),
    (b"block f0 a\n", 1),
];

/// Asserts how the runs of rows end, and what they write.
fn end_so(rt: &impl Abort, alloc: Global, rows: &[Row]) -> Result<(), AllocError> {
    for (words, second, status, out, err) in rows {
        let seen = run_on(alloc, words, FOUR, second)?;
        assert_eq!(rt; seen.status, *status, "{words:?}");
        assert_eq!(rt; seen.out.bytes(), *out, "{words:?}");
        assert_eq!(rt; seen.err.bytes(), *err, "{words:?}");
    }
    Ok(())
}

/// A run of these words over a folder with the files `F` and `G`.
fn run_on(alloc: Global, words: &[&str], file: &[u8], second: &[u8]) -> Result<Seen, AllocError> {
    let mut folder = MemFolder::new(alloc, 1000, &[])?;
    folder.add("F", file)?;
    folder.add("G", second)?;
    run_over(alloc, 10_000, words, folder, &[], &[])
}

#[test]
fn pairs_are_explained_and_steps_counted(rt: HostRuntime) -> Result<(), Fail> {
    end_so(&rt, rt.alloc(), EXPLAINED)?;
    Ok(())
}

#[test]
fn formulas_are_checked_at_states(rt: HostRuntime) -> Result<(), Fail> {
    end_so(&rt, rt.alloc(), CHECKED)?;
    Ok(())
}

#[test]
fn answers_are_judged_by_three_rules(rt: HostRuntime) -> Result<(), Fail> {
    let alloc = rt.alloc();
    end_so(&rt, alloc, JUDGED)?;
    for (second, line) in BAD {
        let seen = run_on(alloc, &["verify", "F", "G"], FOUR, second)?;
        assert_eq!(rt; seen.status, Status::AnswerText { line: *line });
        assert_eq!(rt; seen.out.bytes(), b"".as_slice());
    }
    Ok(())
}

#[test]
fn formulas_see_places_and_labels(rt: HostRuntime) -> Result<(), Fail> {
    let file = b"{f,n} x X^{a,b}
q: (n, {a: p, b: r})
p: (n, {a: q, b: r})
r: (f, {a: q, b: p})
";
    let formulas = b"f0 = true\nf1 = at 1 =1 f0 f0\nf2 = at 0 (2,1) f1 f0\n";
    let seen = run_on(rt.alloc(), &["check", "F", "G", "q", "r"], file, formulas)?;
    assert_eq!(rt; seen.status, Status::Done);
    let wanted = b"q f0 true\nq f1 false\nq f2 true\nr f0 true\nr f1 false\nr f2 false\n";
    assert_eq!(rt; seen.out.bytes(), wanted.as_slice());
    Ok(())
}

#[test]
fn counts_of_small_files(rt: HostRuntime) -> Result<(), Fail> {
    let alloc = rt.alloc();
    let rows: [(&str, &[u8], &[u8]); 2] = [
        ("blocks", b"P X\n", b"# sorted 0 places 0 labels 0\n"),
        (
            "minimise",
            b"Z^(X)\na: {b: 1, c: -1}\nb: {}\nc: {}\n",
            b"Z^(X)\na: {}\n# sorted 3 places 2 labels 2\n",
        ),
    ];
    for (command, file, out) in rows {
        let seen = run_on(alloc, &[command, "F", "--stats"], file, b"")?;
        assert_eq!(rt; seen.out.bytes(), out);
    }
    // an empty answer is right where there is no state
    let seen = run_on(alloc, &["certify", "F"], b"P X\n", b"")?;
    assert_eq!(rt; seen.out.bytes(), b"".as_slice());
    let seen = run_on(alloc, &["verify", "F", "G"], b"P X\n", b"")?;
    assert_eq!(rt; seen.out.bytes(), b"right\n".as_slice());
    Ok(())
}

/// Asserts that the pair is explained as its blocks say, and that the formula, if there is one,
/// holds at the first state and fails at the second.
fn explains(
    rt: &impl Abort,
    alloc: Global,
    file: &[u8],
    x: &str,
    y: &str,
) -> Result<(), AllocError> {
    let said = run_on(alloc, &["explain", "F", x, y], file, b"")?;
    assert_eq!(rt; said.status, Status::Done, "{x} {y}");
    if said.out.bytes().starts_with(b"equivalent ") {
        return Ok(());
    }
    let holds = run_on(alloc, &["check", "F", "G", x], file, said.out.bytes())?;
    assert!(rt; holds.out.bytes().ends_with(b" true\n"), "{x} {y}");
    let fails = run_on(alloc, &["check", "F", "G", y], file, said.out.bytes())?;
    assert!(rt; fails.out.bytes().ends_with(b" false\n"), "{x} {y}");
    Ok(())
}

#[test]
fn what_is_said_of_four_states_is_right(rt: HostRuntime) -> Result<(), Fail> {
    let alloc = rt.alloc();
    explains(&rt, alloc, FOUR, "a", "c")?;
    explains(&rt, alloc, FOUR, "a", "d")?;
    let answer = run_on(alloc, &["certify", "F"], FOUR, b"")?;
    let seen = run_on(alloc, &["verify", "F", "G"], FOUR, answer.out.bytes())?;
    assert_eq!(rt; seen.status, Status::Done);
    assert_eq!(rt; seen.out.bytes(), b"right\n".as_slice());
    Ok(())
}

#[test]
fn what_is_certified_is_right(rt: HostRuntime) -> Result<(), Fail> {
    let alloc = rt.alloc();
    let mut seed = 11u64;
    for (functor, forms) in FAMILIES {
        for number in 0..25u32 {
            let file = generated(alloc, functor, forms, &mut seed)?;
            let answer = run_on(alloc, &["certify", "F", "--stats"], &file, b"")?;
            assert_eq!(rt; answer.status, Status::Done, "{functor}, file {number}");
            let seen = run_on(alloc, &["verify", "F", "G"], &file, answer.out.bytes())?;
            assert_eq!(rt; seen.status, Status::Done, "{functor}, file {number}");
            assert_eq!(rt; seen.out.bytes(), b"right\n".as_slice());
            // the first two states, and the first with itself
            explains(&rt, alloc, &file, "s0", "s0")?;
            let blocks = run_on(alloc, &["blocks", "F"], &file, b"")?;
            if blocks.out.bytes().len() > 6 {
                explains(&rt, alloc, &file, "s0", "s1")?;
                explains(&rt, alloc, &file, "s1", "s0")?;
            }
        }
    }
    Ok(())
}
