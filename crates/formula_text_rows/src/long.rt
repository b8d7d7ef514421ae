//! A text of 100,000 formulas, made by draws, that is read and written again.
use formula_text::{dag_text, read_answers};
use std::alloc::{AllocError, Global};
use std::process::Abort;
use std::test::Fail;

/// How many formulas there are.
const FORMULAS: usize = 100_000;

/// A number below k, and 0 where k is 0.
fn draw(seed: &mut u64, k: usize) -> usize {
    *seed = seed
        .wrapping_mul(6364136223846793005)
        .wrapping_add(1442695040888963407);
    if k == 0 {
        0
    } else {
        (*seed >> 33) as usize % k
    }
}

/// A fraction in lowest terms: a whole number, or an odd one over a power of 2.
fn fraction(alloc: Global, seed: &mut u64) -> Result<String, AllocError> {
    let sign = if draw(seed, 2) == 0 { "" } else { "-" };
    let size = draw(seed, 1_000_000).wrapping_mul(2).wrapping_add(1);
    match draw(seed, 3) {
        0 => String::from_str(alloc, "0"),
        1 => format!(in alloc; "{sign}{size}"),
        _ => {
            let below = 2u64 << (draw(seed, 40) % 40);
            format!(in alloc; "{sign}{size}/{below}")
        }
    }
}

/// The value of a layer.
fn value(alloc: Global, seed: &mut u64) -> Result<String, AllocError> {
    let (t, u) = (draw(seed, 3), draw(seed, 3));
    match draw(seed, 8) {
        0 => {
            let label = (draw(seed, 1 << 20) << 20).wrapping_add(draw(seed, 1 << 20));
            format!(in alloc; "={label}")
        }
        1 => format!(in alloc; "{t}"),
        2 => format!(in alloc; "({t},{u})"),
        3 => format!(in alloc; "({t},{u},{t},{t},{u})"),
        4 => {
            let part = draw(seed, 256);
            format!(in alloc; "{part}:{t}")
        }
        5 => format!(in alloc; "{{{t}}}"),
        6 => {
            let set = ["{}", "{0,1}", "{0,2}", "{1,2}", "{0,1,2}"];
            let one = set.get(draw(seed, 5)).copied().unwrap_or("{}");
            String::from_str(alloc, one)
        }
        _ => {
            let (a, b) = (fraction(alloc, seed)?, fraction(alloc, seed)?);
            let c = fraction(alloc, seed)?;
            format!(in alloc; "[{a},{b},{c}]")
        }
    }
}

/// The line of formula k.
fn line(alloc: Global, k: usize, seed: &mut u64) -> Result<String, AllocError> {
    let (i, j) = (draw(seed, k), draw(seed, k));
    let kind = if k == 0 { 0 } else { draw(seed, 12) };
    match kind {
        0 => format!(in alloc; "f{k} = true\n"),
        1 | 2 => format!(in alloc; "f{k} = not f{i}\n"),
        3 | 4 => format!(in alloc; "f{k} = and f{i} f{j}\n"),
        _ => {
            let (node, value) = (draw(seed, 256), value(alloc, seed)?);
            format!(in alloc; "f{k} = at {node} {value} f{i} f{j}\n")
        }
    }
}

/// The text of the formulas that a text defines.
fn again(rt: &impl Abort, alloc: Global, text: &[u8]) -> Result<Vec<u8>, AllocError> {
    assert!(rt; text.len() <= 67_108_864);
    match read_answers(alloc, text) {
        Ok(read) => {
            assert_eq!(rt; read.dag.len() as usize, FORMULAS);
            dag_text(alloc, &read.dag)
        }
        Err(_) => {
            assert!(rt; false, "a bad line");
            Ok(Vec::new(alloc))
        }
    }
}

#[test]
fn a_hundred_thousand_formulas_are_read_and_written(rt: HostRuntime) -> Result<(), Fail> {
    let alloc = rt.alloc();
    let mut seed = 5u64;
    let mut text = Vec::new(alloc);
    for k in 0..FORMULAS {
        text.extend_from_slice(line(alloc, k, &mut seed)?.as_bytes())?;
    }
    let once = again(&rt, alloc, text.as_slice())?;
    assert!(rt; once.as_slice() == text.as_slice());
    let twice = again(&rt, alloc, once.as_slice())?;
    assert!(rt; twice.as_slice() == once.as_slice());
    Ok(())
}
