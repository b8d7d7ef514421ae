//! The expected truths were worked out by hand.

use evaluation::{CheckFault, Evaluator, evaluate};
use formula_text::read_answers;
use formulas::Dag;
use std::alloc::{AllocError, Global};
use std::process::Abort;
use std::test::Fail;
use structure_parser::read_file;
use typing::Coalgebra;

/// The longest file that is read.
const LONGEST: usize = 67_108_864;

/// The truths of each formula at each state, or the number of the modality that does not fit.
fn told(alloc: Global, c: &Coalgebra, dag: &Dag) -> Result<String, AllocError> {
    let mut text = String::new(alloc);
    match evaluate(alloc, c, dag) {
        Ok(truths) => {
            for f in 0..dag.len() {
                for x in 0..c.names.len() {
                    text.push(if truths.holds(f, x) { '1' } else { '0' })?;
                }
                text.push(' ')?;
            }
        }
        Err(CheckFault::BadNode { index }) => {
            text.push_str(format!(in alloc; "f{index} does not fit")?.as_str())?;
        }
        Err(CheckFault::NoMemory) => text.push_str("no memory")?,
    }
    Ok(text)
}

/// The same, one formula after the other, of formulas that need not fit.
fn told_in_turn(alloc: Global, c: &Coalgebra, dag: &Dag) -> Result<String, AllocError> {
    let mut text = String::new(alloc);
    let mut evaluator = Evaluator::new(alloc, c, dag)?;
    for _k in 0..dag.len() {
        evaluator.advance(c, dag)?;
        for x in 0..c.names.len() {
            text.push(if evaluator.holds(x) { '1' } else { '0' })?;
        }
        text.push(' ')?;
    }
    Ok(text)
}

/// What a file is about, the file, lines of formulas, and for each formula its truths at the
/// states.
const ROWS: &[(&str, &[u8], &[u8], &str)] = &[
    (
        "sets, and all kinds of formulas",
        b"P X\na: {b}\nb: {}\nc: {c, b}\nd: {a}\n",
        b"f0 = true\nf1 = at 0 {} f0 f0\nf2 = not f1\nf3 = at 0 {0,2} f1 f1\n\
        f4 = at 0 {1} f3 f2\nf5 = and f2 f4\n",
        "1111 0100 1011 0010 0001 0001 ",
    ),
    (
        "labels, pairs and powers",
        b"{f,n} x X^{a,b}\nq: (n, {a: q, b: r})\nr: (f, {a: q, b: q})\n",
        b"f0 = true\nf1 = at 1 =0 f0 f0\nf2 = at 0 (2,0) f1 f1\nf3 = at 2 (0,2) f2 f2\n\
        f4 = at 0 (0,2) f3 f3\n",
        "11 00 01 00 10 ",
    ),
    (
        "parts of a sum",
        b"1 + {u,v} x X\na: inj 0 0\nb: inj 1 (u, a)\nc: inj 1 (u, d)\nd: inj 0 0\n",
        b"f0 = true\nf1 = at 0 0:2 f0 f0\nf2 = at 2 (0,2) f1 f1\nf3 = at 0 1:2 f2 f2\n\
        f4 = at 0 1:1 f1 f2\n",
        "1111 1001 0000 0110 0110 ",
    ),
    (
        "whole weights that cancel",
        b"Z^(X)\na: {b: 1, c: -1}\nb: {}\nc: {b: 2}\nd: {a: 3, b: -3, c: 4}\n",
        b"f0 = true\nf1 = at 0 [0,0,0] f0 f0\nf2 = at 0 [0,0,2] f0 f0\nf3 = at 0 [4,0,0] f1 f1\n\
        f4 = at 0 [0,1,-1] f2 f0\n",
        "1111 1100 0010 0001 1000 ",
    ),
    (
        "distributions over the denominator 4",
        b"{p,q} x D X\nx: (p, {y: 1/2, z: 1/2})\ny: (q, {y: 1})\nz: (q, {x: 1/4, y: 3/4})\n",
        b"f0 = true\nf1 = at 1 =0 f0 f0\nf2 = at 0 (2,0) f1 f1\nf3 = at 2 [3/4,0,1/4] f2 f2\n\
        f4 = at 0 (0,2) f3 f3\nf5 = at 2 [1/2,1/2,0] f1 f4\nf6 = at 0 (0,2) f5 f5\n",
        "111 000 100 000 001 000 100 ",
    ),
    (
        "numbers and bags",
        b"N x B X\na: (7, {b: 2, a: 1})\nb: (0, {})\n",
        b"f0 = true\nf1 = at 1 =7 f0 f0\nf2 = at 0 (2,0) f1 f1\nf3 = at 2 [2,0,1] f2 f2\n\
        f4 = at 0 (0,2) f3 f3\n",
        "11 00 10 00 10 ",
    ),
    (
        "fractions whose sum has a smaller denominator",
        b"Q^(X)\na: {b: 1/3, c: 1/6}\nb: {}\nc: {c: -1/2}\n",
        b"f0 = true\nf1 = at 0 [0,0,1/2] f0 f0\nf2 = at 0 [0,0,-1/2] f0 f0\n\
        f3 = at 0 [1/3,0,1/6] f2 f2\n",
        "111 100 001 100 ",
    ),
    (
        "a state for a structure",
        b"X\na: b\nb: a\n",
        b"f0 = true\nf1 = at 0 2 f0 f0\nf2 = at 0 0 f0 f0\nf3 = not f2\n",
        "11 11 00 11 ",
    ),
    (
        "a modality that does not fit, and one before it",
        b"P X\na: {}\n",
        b"f0 = true\nf1 = at 0 {} f0 f0\nf2 = at 0 2 f0 f0\nf3 = at 1 2 f0 f0\n",
        "f2 does not fit",
    ),
];

/// The truths of a row, by both ways; none where the file or the lines are not read.
fn truths_of(
    rt: &impl Abort,
    alloc: Global,
    file: &[u8],
    lines: &[u8],
) -> Result<String, AllocError> {
    let mut text = String::new(alloc);
    if LONGEST < file.len() {
        return Ok(text);
    }
    if LONGEST < lines.len() {
        return Ok(text);
    }
    if let Ok(c) = read_file(alloc, file) {
        if let Ok(answer) = read_answers(alloc, lines) {
            text = told(alloc, &c, &answer.dag)?;
            let in_turn = told_in_turn(alloc, &c, &answer.dag)?;
            if !text.as_str().ends_with("fit") {
                assert_eq!(rt; text.as_str(), in_turn.as_str());
            }
        }
    }
    Ok(text)
}

#[test]
fn formulas_hold_where_they_were_worked_out_to_hold(rt: HostRuntime) -> Result<(), Fail> {
    for (what, file, lines, expected) in ROWS {
        let text = truths_of(&rt, rt.alloc(), file, lines)?;
        assert_eq!(rt; text.as_str(), *expected, "{what}");
    }
    Ok(())
}
