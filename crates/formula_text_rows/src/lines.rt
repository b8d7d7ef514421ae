//! What the grammar says of lines that were worked out by hand.
use formula_text::{DagFault, dag_text, read_answers, read_certificate};
use std::alloc::{AllocError, Global};

/// The number of the first bad line where a line stands behind two formulas, and 0 if all are good.
fn first_bad(alloc: Global, line: &str) -> Result<u32, AllocError> {
    let mut text = Vec::from_slice(alloc, b"f0 = true\nf1 = not f0\n")?;
    text.extend_from_slice(line.as_bytes())?;
    if text.len() > 1 << 26 {
        return Ok(4);
    }
    match read_answers(alloc, text.as_slice()) {
        Ok(_) => Ok(0),
        Err(DagFault::BadLine { line }) => Ok(line),
        Err(DagFault::NoMemory) => Ok(5),
    }
}

#[test]
fn lines_are_good_or_bad(rt: HostRuntime) {
    for (line, bad) in [
        ("f2 = true", 0),
        ("  f2\t=  true \t", 0),
        ("f2 = true\r", 0),
        ("# f2", 0),
        ("f2 = not f1", 0),
        ("f2 = not f2", 3),
        ("f2 = not f01", 3),
        ("f2 = not f", 3),
        ("f2 = not 1", 3),
        ("f2 = and f1 f1", 0),
        ("f2 = and f1", 3),
        ("f2 = and f0 f2", 3),
        ("f3 = true", 3),
        ("f02 = true", 3),
        ("f2=true", 3),
        ("f2 = True", 3),
        ("f2 =", 3),
        ("f2 = at 0 =7 f1 f0", 0),
        ("f2 = at 255 =1099511627776 f1 f0", 0),
        ("f2 = at 256 =7 f1 f0", 3),
        ("f2 = at 00 =7 f1 f0", 3),
        ("f2 = at 0 =1099511627777 f1 f0", 3),
        ("f2 = at 0 =07 f1 f0", 3),
        ("f2 = at 0 = f1 f0", 3),
        ("f2 = at 0 2 f1 f0", 0),
        ("f2 = at 0 3 f1 f0", 3),
        ("f2 = at 0 (2,1) f1 f0", 0),
        ("f2 = at 0 (0) f1 f0", 0),
        ("f2 = at 0 () f1 f0", 3),
        ("f2 = at 0 (2,) f1 f0", 3),
        ("f2 = at 0 (2,3) f1 f0", 3),
        ("f2 = at 0 255:2 f1 f0", 0),
        ("f2 = at 0 256:2 f1 f0", 3),
        ("f2 = at 0 1:3 f1 f0", 3),
        ("f2 = at 0 {} f1 f0", 0),
        ("f2 = at 0 {0,2} f1 f0", 0),
        ("f2 = at 0 {2,0} f1 f0", 3),
        ("f2 = at 0 {1,1} f1 f0", 3),
        ("f2 = at 0 {3} f1 f0", 3),
        ("f2 = at 0 [1/2,0,1/2] f1 f0", 0),
        ("f2 = at 0 [-1/1099511627776,0,-7] f1 f0", 0),
        ("f2 = at 0 [81129638414606681695789005144064,0,0] f1 f0", 0),
        ("f2 = at 0 [81129638414606681695789005144065,0,0] f1 f0", 3),
        ("f2 = at 0 [2/4,0,1/2] f1 f0", 3),
        ("f2 = at 0 [2/1,0,1] f1 f0", 3),
        ("f2 = at 0 [-0,0,1] f1 f0", 3),
        ("f2 = at 0 [0/2,0,1] f1 f0", 3),
        ("f2 = at 0 [1,0] f1 f0", 3),
        ("f2 = at 0 [1/1099511627777,0,1] f1 f0", 3),
        ("f2 = at 0 [1,0,1/2/3] f1 f0", 3),
        ("block f1 a b c", 0),
        ("block f1 inj", 0),
        ("block f1", 3),
        ("block f2 a", 3),
        ("block f1 a:", 3),
        ("separates a b f0", 0),
        ("separates a f0", 3),
        ("separates a b f2", 3),
        ("equivalent a b", 0),
        ("equivalent a b c", 3),
        ("equivalent a ,", 3),
        ("true", 3),
    ] {
        assert_eq!(rt; first_bad(rt.alloc(), line), Ok(bad), "{line}");
    }
}

/// The text of the formulas that a text defines.
fn again(alloc: Global, text: &[u8]) -> Result<Vec<u8>, DagFault> {
    if text.len() > 1 << 26 {
        return Err(DagFault::NoMemory);
    }
    let read = read_answers(alloc, text)?;
    let written = dag_text(alloc, &read.dag)?;
    Ok(written)
}

#[test]
fn a_text_is_read_and_written_again(rt: HostRuntime) {
    let text =
        "# formulas\n\nf0 = true\nf1  = at 3 [1/2,0,-1/2] f0 f0\nblock f1 a b\nf2 = and f1 f0";
    let written = again(rt.alloc(), text.as_bytes()).expect(&rt, "good lines");
    let wanted = "f0 = true\nf1 = at 3 [1/2,0,-1/2] f0 f0\nf2 = and f1 f0\n";
    assert_eq!(rt; written.as_slice(), wanted.as_bytes());
}

/// The number of the first line that is bad in a certificate, and 0 if all are good.
fn first_bad_in_certificate(alloc: Global, text: &[u8]) -> u32 {
    if text.len() > 1 << 26 {
        return 4;
    }
    match read_certificate(alloc, text) {
        Ok(_) => 0,
        Err(DagFault::BadLine { line }) => line,
        Err(DagFault::NoMemory) => 5,
    }
}

#[test]
fn a_certificate_has_blocks_and_no_pairs(rt: HostRuntime) {
    for (text, bad) in [
        ("f0 = true\nblock f0 a b\n", 0),
        ("f0 = true\nseparates a b f0\nf2 = true\n", 2),
        ("f0 = true\n\nequivalent a b\n", 3),
        ("f0 = not f0\nequivalent a b\n", 1),
    ] {
        let found = first_bad_in_certificate(rt.alloc(), text.as_bytes());
        assert_eq!(rt; found, bad, "{text}");
    }
}
