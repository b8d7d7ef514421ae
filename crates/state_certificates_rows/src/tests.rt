//! What no clause says: that the calls succeed with ample memory, and that their formulas are true
//! where a small program of its own finds them true. Blocks and counts were worked out by hand.

ghost use Rattle.std.specs.Prelude.{◌≡◌, ◌<◌, length, All, IfOk};
ghost use Rattle.typing.specs.Contents.{content_of};
ghost use Rattle.state_certificates.specs.Certificates.{AreCertificates};

use classes::refinement_of;
use formula_builder::Certificates;
use formulas::{Dag, Formula};
use modalities::Three;
use outside::Steps;
use state_certificates::{
    Certificate, Explanation, certify_classes, explain_pairs, state_formulas,
};
use std::alloc::{AllocError, Global};
use std::marker::Brand;
use std::sync::ledger::{Blank, Ledger};
use std::test::Fail;
use structure_parser::read_file;
use typing::Coalgebra;

/// Four states: a and b lead to each other, c leads nowhere, and d leads to a and c.
const FILE: &[u8] = b"P X\na: {b}\nb: {a}\nc: {}\nd: {c, a}\n";

/// The mark of each state of the file, and those of the states to which it leads.
const STATES: &[(u8, &[u8])] = &[(1, &[2]), (2, &[1]), (4, &[]), (8, &[4, 1])];

/// Set k has the marks of the states at which formula k holds.
fn truth_of(truths: &[u8], k: u32) -> u8 {
    match truths.get(k as usize) {
        Some(truth) => *truth,
        None => 0,
    }
}

/// The set of 0, 1 and 2 that stands for a set of states.
fn members(successors: &[u8], splitter: u8, coarse: u8) -> u8 {
    let mut bits = 0;
    for mark in successors {
        bits |= if coarse & *mark == 0 {
            1
        } else if splitter & *mark == 0 {
            2
        } else {
            4
        };
    }
    bits
}

/// The states with a value.
fn with_value(value: &Three, splitter: u8, coarse: u8) -> u8 {
    let mut found = 0;
    for (mark, successors) in STATES {
        if let Three::Members(bits) = value {
            if members(successors, splitter, coarse) == *bits {
                found |= *mark;
            }
        }
    }
    found
}

/// Where the formulas of a list hold.
fn truths_of(alloc: Global, dag: &Dag) -> Result<Vec<u8>, AllocError> {
    let mut truths = Vec::new(alloc);
    for k in 0..dag.len() {
        let known: &[u8] = truths.as_slice();
        let truth = match dag.formula(k) {
            Formula::True => 15,
            Formula::Not(i) => 15 ^ truth_of(known, *i),
            Formula::And(i, j) => truth_of(known, *i) & truth_of(known, *j),
            Formula::At {
                value,
                splitter,
                coarse,
                ..
            } => with_value(value, truth_of(known, *splitter), truth_of(known, *coarse)),
        };
        truths.push(truth)?;
    }
    Ok(truths)
}

/// The formulas of the states, from a counter at 0.
fn told_of<L: Ledger>(
    alloc: Global,
    c: &Coalgebra,
    blank: Blank,
) -> Result<Certificates, AllocError>
    requires name { blank.name ≡ L.name }
    requires parts { blank.parts ≡ L.parts }
    requires some { 0 < L.parts }
    ensures { IfOk result (λ told. AreCertificates (content_of c.now) told) }
{
    let mut steps = Steps::<L>::fresh(blank);
    let found = refinement_of(alloc, c, &mut steps)?;
    let told = state_formulas(alloc, c, &found.system, &found.refined)?;
    Ok(told)
}

/// All pairs of the first n states.
fn all_pairs(alloc: Global, n: u32) -> Result<Vec<(u32, u32)>, AllocError>
    ensures { IfOk result (λ pairs. All (λ p. (p.0 < n) × (p.1 < n)) pairs.items) }
{
    let mut pairs = Vec::new(alloc);
    for i in 0..n {
        for j in 0..n {
            pairs.push((i, j))?;
        }
    }
    Ok(pairs)
}

/// What is told of all pairs of states, and the certificate of a coalgebra.
fn answers_of(alloc: Global, c: &Coalgebra) -> Result<(Explanation, Certificate), AllocError> {
    let _states = c.names.len();
    let told = told_of::<Brand>(alloc, c, Blank::new(1))?;
    let pairs = all_pairs(alloc, c.names.len())?;
    Ok((
        explain_pairs(alloc, c, &told, pairs.as_slice())?,
        certify_classes(alloc, c, &told)?,
    ))
}

/// Numbers, one behind another.
fn listed(alloc: Global, numbers: &[u32]) -> Result<String, AllocError> {
    let mut text = String::new(alloc);
    for n in numbers {
        text.push_str(format!(in alloc; "{n} ")?.as_str())?;
    }
    Ok(text)
}

/// For each pair where its formula holds, and 0 where it has none.
fn pairs_told(alloc: Global, told: &Explanation) -> Result<String, AllocError> {
    let truths = truths_of(alloc, &told.dag)?;
    let mut found = Vec::new(alloc);
    for verdict in &told.verdicts {
        found.push(match verdict {
            Some(k) => u32::from(truth_of(truths.as_slice(), *k)),
            None => 0,
        })?;
    }
    listed(alloc, found.as_slice())
}

/// The states of each class behind the marks of the states at which its formula holds.
fn classes_told(alloc: Global, told: &Certificate) -> Result<String, AllocError> {
    let truths = truths_of(alloc, &told.dag)?;
    let mut text = String::new(alloc);
    for (k, block) in told.formulas.iter().zip(told.blocks.iter()) {
        let truth = truth_of(truths.as_slice(), *k);
        let states = listed(alloc, block.as_slice())?;
        text.push_str(format!(in alloc; "{truth}: {states}")?.as_str())?;
    }
    Ok(text)
}

#[test]
fn pairs_and_classes_have_their_formulas(rt: HostRuntime) -> Result<(), Fail> {
    let alloc = rt.alloc();
    match read_file(alloc, FILE) {
        Ok(c) => {
            let (pairs, classes) = answers_of(alloc, &c)?;
            // a and b are equivalent; the formula of their block holds at marks 1 and 2
            assert_eq!(rt;
                pairs_told(alloc, &pairs)?.as_str(),
                "0 0 3 3 0 0 3 3 4 4 0 4 8 8 8 0 "
            );
            assert_eq!(rt;
                classes_told(alloc, &classes)?.as_str(),
                "3: 0 1 4: 2 8: 3 "
            );
            // true; a set with a member; none; members of no splitter alone; of both; two parts
            assert_eq!(rt; pairs.dag.len(), 7);
            assert_eq!(rt; classes.dag.len(), 7);
        }
        Err(_) => assert!(rt; false, "the file is read"),
    }
    Ok(())
}
