//! The expected verdicts were worked out by hand.

use answer_checker::{AnswerFault, Reason, Verdict, read_formulas, verify};
use std::alloc::{AllocError, Global};
use std::test::Fail;
use structure_parser::read_file;
use typing::{Coalgebra, Names};

/// The longest file that is read.
const LONGEST: usize = 67_108_864;

/// States a and b are equivalent, and no others are.
const STATES: &[u8] = b"P X\na: {b}\nb: {a}\nc: {}\nd: {c, a}\n";

/// The name of a state.
fn name<'a>(names: &Names<'a>, i: u32) -> &'a [u8] {
    if i < names.len() { names.name(i) } else { b"" }
}

/// Puts a space and the name of a state last.
fn push_name(text: &mut Vec<u8>, names: &Names, i: u32) -> Result<(), AllocError> {
    text.push(b' ')?;
    text.extend_from_slice(name(names, i))?;
    Ok(())
}

/// The reason in words.
fn push_reason(
    alloc: Global,
    text: &mut Vec<u8>,
    names: &Names,
    reason: Reason,
) -> Result<(), AllocError> {
    match reason {
        Reason::Missing(i) => {
            text.extend_from_slice(b"missing")?;
            push_name(text, names, i)
        }
        Reason::Twice(i) => {
            text.extend_from_slice(b"twice")?;
            push_name(text, names, i)
        }
        Reason::Unstable(x, y) => {
            text.extend_from_slice(b"unstable")?;
            push_name(text, names, x)?;
            push_name(text, names, y)
        }
        Reason::Wrong(f, x) => {
            text.extend_from_slice(format!(in alloc; "formula f{f}")?.as_bytes())?;
            push_name(text, names, x)
        }
    }
}

/// The verdict on an answer in words.
fn told(alloc: Global, c: &Coalgebra, answer: &[u8]) -> Result<Vec<u8>, AllocError> {
    let mut text = Vec::new(alloc);
    if LONGEST < answer.len() {
        return Ok(text);
    }
    match verify(alloc, c, answer)? {
        Verdict::Yes => text.extend_from_slice(b"right")?,
        Verdict::No(reason) => push_reason(alloc, &mut text, &c.names, reason)?,
        Verdict::BadLine(line) => {
            text.extend_from_slice(format!(in alloc; "line {line}")?.as_bytes())?;
        }
    }
    Ok(text)
}

/// What an answer shows, the answer, and the verdict on it.
const ROWS: &[(&str, &[u8], &[u8])] = &[
    (
        "a right answer",
        b"f0 = true\nf1 = at 0 {2} f0 f0\nf2 = not f1\nf3 = at 0 {1} f2 f0\n\
        f4 = at 0 {1,2} f2 f0\nblock f3 a b\nblock f2 c\nblock f4 d\n",
        b"right",
    ),
    (
        "a formula that no line cites",
        b"f0 = true\nf1 = at 0 {2} f0 f0\nf2 = not f1\nf3 = at 0 {1} f2 f0\n\
        f4 = at 0 {1,2} f2 f0\nf5 = and f3 f4\nblock f3 a b\nblock f2 c\nblock f4 d\n",
        b"right",
    ),
    (
        "states of one block that differ",
        b"f0 = true\nf1 = at 0 {2} f0 f0\nf2 = not f1\nf3 = at 0 {1} f2 f0\n\
        f4 = at 0 {1,2} f2 f0\nblock f3 d b\nblock f2 c\nblock f4 a\n",
        b"unstable b d",
    ),
    (
        "a formula that does not hold at its states",
        b"f0 = true\nf1 = at 0 {2} f0 f0\nf2 = not f1\nf3 = at 0 {1} f2 f0\n\
        f4 = at 0 {1,2} f2 f0\nblock f2 a b\nblock f2 c\nblock f4 d\n",
        b"formula f2 a",
    ),
    (
        "a state in no line",
        b"f0 = true\nf1 = at 0 {2} f0 f0\nf2 = not f1\nf3 = at 0 {1} f2 f0\n\
        f4 = at 0 {1,2} f2 f0\nblock f3 a b\nblock f2 c\n",
        b"missing d",
    ),
    (
        "a state in two lines",
        b"f0 = true\nf1 = at 0 {2} f0 f0\nf2 = not f1\nf3 = at 0 {1} f2 f0\n\
        f4 = at 0 {1,2} f2 f0\nblock f3 a b\nblock f2 c\nblock f4 d a\n",
        b"twice a",
    ),
    (
        "a state twice in one line",
        b"f0 = true\nblock f0 a a b\n",
        b"twice a",
    ),
    (
        "a state in no line before one in two",
        b"f0 = true\nblock f0 b c c d\n",
        b"missing a",
    ),
    ("no line at all", b"", b"missing a"),
    (
        "equivalent states apart",
        b"f0 = true\nblock f0 a\nblock f0 b\nblock f0 c\nblock f0 d\n",
        b"formula f0 b",
    ),
    (
        "a later line is wrong at an earlier state, by an earlier formula",
        b"f0 = true\nf1 = not f0\nblock f1 c\nblock f0 a b\nblock f0 d\n",
        b"formula f1 c",
    ),
    (
        "a formula that cites itself",
        b"f0 = true\nf1 = not f1\n",
        b"line 2",
    ),
    ("a needless zero", b"f00 = true\n", b"line 1"),
    (
        "a set in another order",
        b"f0 = true\nf1 = at 0 {2,0} f0 f0\n",
        b"line 2",
    ),
    (
        "a node without a layer",
        b"f0 = true\nf1 = at 1 {2} f0 f0\n",
        b"line 2",
    ),
    (
        "a value of another node",
        b"f0 = true\nf1 = at 0 {2} f0 f0\nf2 = at 0 =1 f0 f0\nblock f0 zz\n",
        b"line 3",
    ),
    (
        "a formula that is not there",
        b"f0 = true\nblock f9 a b\n",
        b"line 2",
    ),
    (
        "a name of no state, before a modality that does not fit",
        b"f0 = true\nblock f0 a zz\nf1 = at 1 {2} f0 f0\n",
        b"line 2",
    ),
    (
        "a pair, behind a modality that does not fit",
        b"f0 = true\nf1 = at 1 {2} f0 f0\nequivalent a b\n",
        b"line 3",
    ),
];

/// The verdict on an answer for the states, and none where the file is not read.
fn verdict_of(alloc: Global, answer: &[u8]) -> Result<Vec<u8>, AllocError> {
    if STATES.len() <= LONGEST {
        if let Ok(c) = read_file(alloc, STATES) {
            return told(alloc, &c, answer);
        }
    }
    Ok(Vec::new(alloc))
}

#[test]
fn verdicts_are_those_that_were_worked_out(rt: HostRuntime) -> Result<(), Fail> {
    for (what, answer, expected) in ROWS {
        let text = verdict_of(rt.alloc(), answer)?;
        assert_eq!(rt; text.as_slice(), *expected, "{what}");
    }
    Ok(())
}

/// How many formulas a text has, or the number of its bad line.
fn formulas_of(alloc: Global, text: &[u8]) -> Result<u32, u32> {
    if LONGEST < text.len() {
        return Err(0);
    }
    match read_file(alloc, STATES) {
        Ok(c) => match read_formulas(alloc, &c.term, text) {
            Ok(dag) => Ok(dag.len()),
            Err(AnswerFault::BadLine { line }) => Err(line),
            Err(AnswerFault::NoMemory) => Err(0),
        },
        Err(_) => Err(0),
    }
}

#[test]
fn formulas_are_read_among_all_kinds_of_lines(rt: HostRuntime) {
    let rows: [(&[u8], Result<u32, u32>); 4] = [
        (b"f0 = true\nblock f0 zz\nequivalent a zz\n", Ok(1)),
        (b"# none\n", Ok(0)),
        (b"f0 = true\nf1 = at 1 {2} f0 f0\n", Err(2)),
        (b"f0 = true\nf1 = at 1 {2} f0 f0\nequivalent a\n", Err(3)),
    ];
    for (text, expected) in rows {
        assert_eq!(rt; formulas_of(rt.alloc(), text), expected);
    }
}
