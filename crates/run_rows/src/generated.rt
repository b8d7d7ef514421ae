//! Generated files over twenty-one functors: what a run prints, beside the classes that the slow
//! program of the definitions finds, and beside what a run on its own output prints.
ghost use Rattle.std.specs.Prelude.{◌≤◌, ◌<◌, ◌^◌, length};

use crate::families::FAMILIES;
use crate::tests::{by_thousands, run_in};
use copar_run::Status;
use plain::classes_of;
use std::alloc::{AllocError, Global};
use std::test::Fail;
use structure_parser::read_file;
use typing::Coalgebra;

/// The longest file that is read.
const LONGEST: usize = 67_108_864;

/// A number below k, by a linear congruence.
fn below(seed: &mut u64, k: u8) -> u8
    requires { 0 < k }
    ensures { result < k }
{
    *seed = seed
        .wrapping_mul(6364136223846793005)
        .wrapping_add(1442695040888963407);
    ((*seed >> 33) % u64::from(k)) as u8
}

/// Puts a structure of this form last, over so many states.
fn push_form(text: &mut Vec<u8>, form: &str, states: u8, seed: &mut u64) -> Result<(), AllocError>
    requires { 0 < states }
{
    for byte in form.as_bytes() {
        match *byte {
            b'?' => text.extend_from_slice(&[b's', b'0'.wrapping_add(below(seed, states))])?,
            b'#' => text.push(b'0' + below(seed, 3))?,
            other => text.push(other)?,
        }
    }
    Ok(())
}

/// A file of one to seven states over a functor.
pub(crate) fn generated(
    alloc: Global,
    functor: &str,
    forms: &[&str],
    seed: &mut u64,
) -> Result<Vec<u8>, AllocError> {
    let mut text = Vec::new(alloc);
    text.extend_from_slice(functor.as_bytes())?;
    text.push(b'\n')?;
    let states = below(seed, 7) + 1;
    for i in 0..states {
        text.extend_from_slice(&[b's', b'0' + i])?;
        text.extend_from_slice(b": ")?;
        let form = (forms.len() as u64).max(1);
        let at = (u64::from(below(seed, 60)) % form) as usize;
        match forms.get(at) {
            Some(form) => push_form(&mut text, form, states, seed)?,
            None => {}
        }
        text.push(b'\n')?;
    }
    Ok(text)
}

/// The block list by the slow program of the definition.
fn plain_blocks(alloc: Global, c: &Coalgebra) -> Result<Vec<u8>, AllocError> {
    let firsts = classes_of(alloc, c)?;
    let mut text = Vec::new(alloc);
    for i in 0..c.names.len() {
        text.extend_from_slice(c.names.name(i))?;
        text.push(b' ')?;
        match firsts.get(i as usize) {
            Some(first) if *first < c.names.len() => {
                text.extend_from_slice(c.names.name(*first))?;
            }
            _ => {}
        }
        text.push(b'\n')?;
    }
    Ok(text)
}

#[test]
fn blocks_are_those_of_the_slow_program(rt: HostRuntime) -> Result<(), Fail> {
    let alloc = rt.alloc();
    let mut seed = 0u64;
    for (functor, forms) in FAMILIES {
        for number in 0..50u32 {
            let file = generated(alloc, functor, forms, &mut seed)?;
            if LONGEST < file.len() {
                continue;
            }
            let folder = by_thousands(alloc, &file, &[])?;
            let seen = run_in(alloc, "blocks", folder, &[], &[])?;
            assert_eq!(rt; seen.status, Status::Done, "{functor}, file {number}");
            match read_file(alloc, &file) {
                Ok(c) => {
                    let blocks = plain_blocks(alloc, &c)?;
                    assert_eq!(rt;
                        seen.out.bytes(),
                        blocks.as_slice(),
                        "{functor}, file {number}"
                    );
                }
                Err(_) => assert!(rt; false, "{functor}, file {number}"),
            }
        }
    }
    Ok(())
}

#[test]
fn minimising_twice_prints_the_same_bytes(rt: HostRuntime) -> Result<(), Fail> {
    let alloc = rt.alloc();
    let mut seed = 7u64;
    for (functor, forms) in FAMILIES {
        for number in 0..50u32 {
            let file = generated(alloc, functor, forms, &mut seed)?;
            let folder = by_thousands(alloc, &file, &[])?;
            let once = run_in(alloc, "minimise", folder, &[], &[])?;
            assert_eq!(rt; once.status, Status::Done, "{functor}, file {number}");
            let printed = by_thousands(alloc, once.out.bytes(), &[])?;
            let twice = run_in(alloc, "minimise", printed, &[], &[])?;
            assert_eq!(rt; twice.status, Status::Done, "{functor}, file {number}");
            assert_eq!(rt;
                twice.out.bytes(),
                once.out.bytes(),
                "{functor}, file {number}"
            );
        }
    }
    Ok(())
}
