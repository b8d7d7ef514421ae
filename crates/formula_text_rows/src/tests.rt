//! The tables of lines and texts, by both readers.
use crate::tables::{BAD, GOOD, PAIRS, TEXTS};
use formula_text::{DagFault, read_answers, read_certificate};
use std::alloc::{AllocError, Global};
use std::process::Abort;
use std::test::Fail;

/// What stands in front of a line and behind it, and the number of the line.
const PLACES: [(&[u8], &[u8], u32); 4] = [
    (b"f0 = true\nf1 = not f0\n", b"\n", 3),
    (b"f0 = true\r\nf1 = not f0\r\n", b"\r\n# end\r\n", 3),
    (
        b"\n# formulas\n \tf0 = true\n\t#\nf1 = not f0\n\n",
        b"\nblock f0 z\nx\n",
        7,
    ),
    (b"f0 = true\nblock f0 z\nf1 = not f0\n", b"", 4),
];

/// The number of the first bad line of a text, where lines of pairs are good or bad, and 0 where
/// each line is good.
fn first_bad(rt: &impl Abort, alloc: Global, text: &[u8], pairs: bool) -> u32 {
    assert!(rt; text.len() <= 67_108_864);
    let read = if pairs {
        read_answers(alloc, text)
    } else {
        read_certificate(alloc, text)
    };
    match read {
        Ok(_) => 0,
        Err(DagFault::BadLine { line }) => line,
        Err(DagFault::NoMemory) => u32::MAX,
    }
}

/// Asserts that a line is good or bad at each place, by both readers.
fn is_read(
    rt: &impl Abort,
    alloc: Global,
    line: &[u8],
    in_answers: bool,
    in_certificates: bool,
) -> Result<(), AllocError> {
    for (front, back, number) in PLACES {
        let mut text = Vec::from_slice(alloc, front)?;
        text.extend_from_slice(line)?;
        text.extend_from_slice(back)?;
        // behind a good line at the third place stands a bad one
        let behind = if number == 7 { 9 } else { 0 };
        let expected = if in_answers { behind } else { number };
        assert_eq!(rt;
            first_bad(rt, alloc, text.as_slice(), true),
            expected,
            "{text:?}"
        );
        let expected = if in_certificates { behind } else { number };
        assert_eq!(rt;
            first_bad(rt, alloc, text.as_slice(), false),
            expected,
            "{text:?}"
        );
    }
    Ok(())
}

#[test]
fn each_rule_of_lines_and_one_past_its_bound(rt: HostRuntime) -> Result<(), Fail> {
    for line in GOOD {
        is_read(&rt, rt.alloc(), line, true, true)?;
    }
    for line in PAIRS {
        is_read(&rt, rt.alloc(), line, true, false)?;
    }
    for line in BAD {
        is_read(&rt, rt.alloc(), line, false, false)?;
    }
    Ok(())
}

#[test]
fn the_first_bad_line_of_a_text_is_told(rt: HostRuntime) {
    for (text, in_answers, in_certificates) in TEXTS {
        assert_eq!(rt;
            first_bad(&rt, rt.alloc(), text, true),
            *in_answers,
            "{text:?}"
        );
        assert_eq!(rt;
            first_bad(&rt, rt.alloc(), text, false),
            *in_certificates,
            "{text:?}"
        );
    }
}
