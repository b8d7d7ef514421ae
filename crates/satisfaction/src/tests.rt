//! What no clause says: that a list takes formulas with ample memory, and that the definition of
//! fitting is the one meant, at values worked by hand.
use crate::first_misfit;
use formulas::{Dag, Formula};
use functor_terms::read_term;
use modalities::{Three, TritList};
use std::alloc::{AllocError, Global};
use std::process::Abort;
use std::test::Fail;

/// The formula that holds everywhere, and a modality over it.
fn modality(alloc: Global, node: u32, value: Three) -> Result<Dag, AllocError> {
    let mut dag = Dag::new(alloc);
    let all = dag.push(Formula::True)?;
    dag.push(Formula::At {
        node,
        value,
        splitter: all,
        coarse: all,
    })?;
    Ok(dag)
}

/// A value with these trits.
fn trits(alloc: Global, trits: &[u8]) -> Result<Three, AllocError> {
    Ok(Three::Trits(TritList::from_vec(Vec::from_slice(alloc, trits)?)))
}

#[test]
fn the_modality_that_does_not_fit_is_named(rt: HostRuntime) -> Result<(), Fail> {
    let alloc = rt.alloc();
    // Product 0, Constant 1, Sum 2, Powerset 3, State 4, State 5
    let term = read_term(alloc, b"2 x (P X + X)".as_slice()).expect(&rt, "a term");
    let mut rows = Vec::new(alloc);
    rows.push((0, trits(alloc, [2, 0].as_slice())?, None))?;
    rows.push((0, trits(alloc, [2].as_slice())?, Some(1)))?;
    rows.push((0, trits(alloc, [3, 0].as_slice())?, Some(1)))?;
    rows.push((1, Three::Label(1), None))?;
    rows.push((1, Three::Label(2), Some(1)))?;
    rows.push((2, Three::Tagged(1, 2), None))?;
    rows.push((2, Three::Tagged(2, 0), Some(1)))?;
    rows.push((3, Three::Members(7), None))?;
    rows.push((3, Three::Members(8), Some(1)))?;
    rows.push((3, Three::Trit(0), Some(1)))?;
    rows.push((4, Three::Trit(0), Some(1)))?;
    rows.push((6, Three::Label(0), Some(1)))?;
    for (node, value, misfit) in rows {
        let dag = modality(alloc, node, value)?;
        assert_eq!(rt; dag.len(), 2);
        assert_eq!(rt; first_misfit(&term, &dag), misfit, "at {node}");
    }
    Ok(())
}
