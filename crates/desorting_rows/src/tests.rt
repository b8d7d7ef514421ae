//! The expected systems were worked out by hand.

ghost use Rattle.std.specs.Prelude.{◌<◌};

use desorting::{System, desort};
use std::alloc::{AllocError, Global};
use std::process::Abort;
use std::test::Fail;
use structure_parser::read_file;

/// The longest file that is read.
const LONGEST: usize = 67_108_864;

/// The sizes of a system and its edges in order, each as its source and its target.
fn listed(alloc: Global, system: &System) -> Result<String, AllocError> {
    let store = system.store();
    let mut text = format!(in alloc; "{} {}", system.sorted(), store.len())?;
    for e in 0..store.len() {
        text.push_str(format!(in alloc; " {}-{}", store.source(e), store.target(e))?.as_str())?;
    }
    Ok(text)
}

/// Sets of states have one shape, which is at node 0.
fn shapes_are_sets(rt: &impl Abort, system: &System) {
    for x in 0..system.sorted() {
        assert_eq!(rt; system.node_of(x), 0, "sorted state {x}");
    }
    for shape in system.shapes() {
        assert_eq!(rt; *shape, 0);
    }
}

/// The system of a file, as a text; a file that is not read has none.
fn told(rt: &impl Abort, alloc: Global, file: &[u8]) -> Result<String, AllocError> {
    if LONGEST < file.len() {
        return Ok(String::new(alloc));
    }
    match read_file(alloc, file) {
        Ok(c) => {
            let system = desort(alloc, &c)?;
            shapes_are_sets(rt, &system);
            listed(alloc, &system)
        }
        Err(_) => Ok(String::new(alloc)),
    }
}

/// The nodes of the sorted states of a file's system in order, and then its edges; a file that is
/// not read has none.
fn told_by_node(alloc: Global, file: &[u8]) -> Result<String, AllocError> {
    let mut text = String::new(alloc);
    if LONGEST < file.len() {
        return Ok(text);
    }
    if let Ok(c) = read_file(alloc, file) {
        let system = desort(alloc, &c)?;
        for x in 0..system.sorted() {
            text.push_str(format!(in alloc; "{} ", system.node_of(x))?.as_str())?;
        }
        text.push_str(listed(alloc, &system)?.as_str())?;
    }
    Ok(text)
}

/// What a file is about, the file, the nodes of its sorted states, and its system.
const NODES: &[(&str, &[u8], &str)] = &[
    (
        "pairs of a label and a power",
        b"{f,n} x X^{a,b}\nq: (n, {a: p, b: r})\np: (n, {a: q, b: r})\nr: (f, {a: q, b: p})\n",
        "0 0 0 1 2 1 2 1 2 \
        9 12 0-3 0-4 1-5 1-6 2-7 2-8 4-1 4-2 6-0 6-2 8-0 8-1",
    ),
    (
        "whole weights in pairs",
        b"2 x Z^(X)\na: (0, {b: 1, c: -1})\nb: (1, {})\nc: (0, {})\nd: (0, {c: 1, a: -1})\n",
        "0 0 0 0 1 2 1 2 1 2 1 2 \
        12 12 0-4 0-5 1-6 1-7 2-8 2-9 3-10 3-11 5-1 5-2 11-0 11-2",
    ),
    (
        "sets of distributions",
        b"P D X\nx: {{y: 1}, {z: 1/2, y: 1/2}}\ny: {}\nz: {}\n",
        "0 0 0 1 1 5 5 0-3 0-4 3-1 3-2 4-1",
    ),
    (
        "a probabilistic automaton",
        b"P({coin,tea} x D X)\ni: {(coin, {r: 9/10, i: 1/10})}\nr: {(tea, {s: 1})}\n\
        s: {(coin, {q: 0.9, j: 0.1})}\nj: {(coin, {r: 0.9, s: 0.1})}\n\
        q: {(tea, {i: 0.5, j: 0.5})}\nb: {}\n",
        "0 0 0 0 0 0 1 1 1 1 1 2 3 2 3 2 3 2 3 2 3 \
        21 24 0-6 1-7 2-8 3-9 4-10 6-11 6-12 7-13 7-14 8-15 8-16 9-17 9-18 10-19 10-20 12-0 12-1 \
        14-2 16-3 16-4 18-1 18-2 20-0 20-3",
    ),
    (
        "parts of a sum",
        b"1 + {u,v} x X\na: inj 0 0\nb: inj 1 (u, a)\nc: inj 1 (u, d)\nd: inj 0 0\n",
        "0 0 0 0 1 2 2 1 3 3 10 8 0-4 1-5 2-6 3-7 5-8 5-0 6-9 6-3",
    ),
    (
        "a state for a structure",
        b"X\na: b\nb: a\n",
        "0 0 2 2 0-1 1-0",
    ),
];

#[test]
fn each_structure_is_a_sorted_state_at_its_node(rt: HostRuntime) -> Result<(), Fail> {
    for (about, file, system) in NODES {
        let text = told_by_node(rt.alloc(), file)?;
        assert_eq!(rt; text.as_str(), *system, "{about}");
    }
    Ok(())
}

/// What a file is about, the file, and its system.
const SETS: &[(&str, &[u8], &str)] = &[
    ("no state", b"P X\n", "0 0"),
    ("an empty set", b"P X\na: {}\n", "1 0"),
    ("a member of its own set", b"P X\na: {a}\n", "1 1 0-0"),
    (
        "two that lead to each other",
        b"P X\na: {b}\nb: {a}\nc: {}\nd: {c, a}\n",
        "4 4 0-1 1-0 3-0 3-2",
    ),
    (
        "a member twice",
        b"P X\nx: {y, y, z}\ny: {}\nz: {}\n",
        "3 2 0-1 0-2",
    ),
];

#[test]
fn sets_of_states_lead_to_the_roots_of_their_members(rt: HostRuntime) -> Result<(), Fail> {
    for (about, file, system) in SETS {
        let text = told(&rt, rt.alloc(), file)?;
        assert_eq!(rt; text.as_str(), *system, "{about}");
    }
    Ok(())
}
