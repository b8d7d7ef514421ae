//! Worked examples: values built by hand, and their classes worked out by hand.
use crate::{are_equal, are_sound, first_equivalents, is_sound, is_stable};
use functor_terms::{LabelSet, Node, PartFault, Term, TermPart};
use sqlite_items::{Boxed, Items};
use std::alloc::{AllocError, Global};
use std::process::Abort;
use std::test::Fail;
use typing::{Value, relabelled};

fn leaf<'a>(alloc: Global, node: Node<'a>) -> Result<TermPart<'a>, PartFault> {
    TermPart::over(alloc, node, Vec::new(alloc))
}

fn over<'a>(alloc: Global, node: Node<'a>, part: TermPart<'a>) -> Result<TermPart<'a>, PartFault> {
    let mut parts = Vec::new(alloc);
    parts.push(part)?;
    TermPart::over(alloc, node, parts)
}

fn over_two<'a>(
    alloc: Global,
    node: Node<'a>,
    left: TermPart<'a>,
    right: TermPart<'a>,
) -> Result<TermPart<'a>, PartFault> {
    let mut parts = Vec::new(alloc);
    parts.push(left)?;
    parts.push(right)?;
    TermPart::over(alloc, node, parts)
}

fn over_states<'a>(alloc: Global, node: Node<'a>) -> Result<Term<'a>, PartFault> {
    Ok(over(alloc, node, leaf(alloc, Node::State)?)?.into_term(alloc)?)
}

/// The sets of n states: for each pair the second is a member of the first's set.
fn sets(alloc: Global, n: u32, members: &[(u32, u32)]) -> Result<Vec<Value>, AllocError> {
    let mut new = Vec::new(alloc);
    for i in 0..n {
        let mut set = Items::new(alloc);
        for (state, member) in members {
            if *state == i {
                set.push(Value::State(*member))?;
            }
        }
        new.push(Value::Set(set))?;
    }
    Ok(new)
}

/// The weights at n states: for each entry the second has a weight at the first.
fn weights(alloc: Global, n: u32, entries: &[(u32, u32, i128)]) -> Result<Vec<Value>, AllocError> {
    let mut new = Vec::new(alloc);
    for i in 0..n {
        let mut list = Items::new(alloc);
        for (state, target, weight) in entries {
            if *state == i {
                list.push((Value::State(*target), *weight))?;
            }
        }
        new.push(Value::Weights(list))?;
    }
    Ok(new)
}

fn pair(alloc: Global, left: Value, right: Value) -> Result<Value, AllocError> {
    let mut parts = Items::new(alloc);
    parts.push(left)?;
    parts.push(right)?;
    Ok(Value::Tuple(parts))
}

/// The weights with 1 beside those of the marked states, and 0 beside the others.
fn with_marks(alloc: Global, list: Vec<Value>, marks: &[u64]) -> Result<Vec<Value>, AllocError> {
    let mut new = Vec::new(alloc);
    let mut left = list.into_iter();
    for mark in marks {
        let Some(value) = left.next() else {
            return Ok(new);
        };
        new.push(pair(alloc, Value::Label(*mark), value)?)?;
    }
    Ok(new)
}

fn firsts_are(
    rt: &impl Abort,
    alloc: Global,
    term: &Term,
    values: &[Value],
    wanted: &[u32],
) -> Result<(), AllocError> {
    assert!(rt; values.len() < 4_294_967_296);
    assert!(rt; are_sound(values, values.len()));
    let firsts = first_equivalents(alloc, term, values)?;
    assert_eq!(rt; firsts.as_slice(), wanted);
    Ok(())
}

fn stable_is(
    rt: &impl Abort,
    alloc: Global,
    term: &Term,
    values: &[Value],
    labels: &[u32],
    wanted: bool,
) -> Result<(), AllocError> {
    assert!(rt; are_sound(values, labels.len()));
    let stable = is_stable(alloc, term, values, labels)?;
    assert_eq!(rt; stable, wanted, "labels {labels:?}");
    Ok(())
}

/// Whether the values are equal before and after their states are replaced by labels.
fn equal_is(
    rt: &impl Abort,
    alloc: Global,
    u: &Value,
    v: &Value,
    labels: &[u32],
    wanted: (bool, bool),
) -> Result<(), PartFault> {
    let term = over_states(alloc, Node::Powerset)?;
    assert!(rt; 0 < term.len());
    assert!(rt; is_sound(u, labels.len()));
    assert!(rt; is_sound(v, labels.len()));
    let (new_u, new_v) = (relabelled(alloc, u, labels)?, relabelled(alloc, v, labels)?);
    assert!(rt; is_sound(&new_u, labels.len()));
    assert!(rt; is_sound(&new_v, labels.len()));
    assert_eq!(rt; are_equal(&term, 0, u, v), wanted.0);
    assert_eq!(rt; are_equal(&term, 0, &new_u, &new_v), wanted.1);
    Ok(())
}

#[test]
fn sets_are_equal_by_their_members(rt: HostRuntime) -> Result<(), Fail> {
    let alloc = rt.alloc();
    let term = over_states(alloc, Node::Powerset)?;
    let four = sets(alloc, 4, [(0, 1), (1, 0), (3, 2), (3, 0)].as_slice())?;
    firsts_are(&rt, alloc, &term, four.as_slice(), [0, 0, 2, 3].as_slice())?;
    stable_is(
        &rt,
        alloc,
        &term,
        four.as_slice(),
        [1, 1, 0, 2].as_slice(),
        true,
    )?;
    stable_is(
        &rt,
        alloc,
        &term,
        four.as_slice(),
        [0, 0, 0, 3].as_slice(),
        false,
    )?;
    stable_is(
        &rt,
        alloc,
        &term,
        four.as_slice(),
        [0, 0, 2].as_slice(),
        false,
    )?;
    let three = sets(alloc, 3, [(0, 1), (0, 1), (0, 2)].as_slice())?;
    firsts_are(&rt, alloc, &term, three.as_slice(), [0, 1, 1].as_slice())?;
    Ok(())
}

#[test]
fn joined_members_make_sets_equal(rt: HostRuntime) -> Result<(), Fail> {
    let alloc = rt.alloc();
    let list = sets(alloc, 2, [(0, 1), (0, 2), (1, 1)].as_slice())?;
    let [both, one] = list.as_slice() else {
        return Ok(());
    };
    equal_is(&rt, alloc, both, one, [0, 1, 1].as_slice(), (false, true))?;
    equal_is(&rt, alloc, one, both, [0, 1, 2].as_slice(), (false, false))?;
    Ok(())
}

#[test]
fn weights_that_cancel_count_as_none(rt: HostRuntime) -> Result<(), Fail> {
    let alloc = rt.alloc();
    let term = over_states(alloc, Node::Integers)?;
    let three = weights(alloc, 3, [(0, 1, 1), (0, 2, -1)].as_slice())?;
    firsts_are(&rt, alloc, &term, three.as_slice(), [0, 0, 0].as_slice())?;
    stable_is(
        &rt,
        alloc,
        &term,
        three.as_slice(),
        [0, 1, 2].as_slice(),
        true,
    )?;
    stable_is(
        &rt,
        alloc,
        &term,
        three.as_slice(),
        [0, 1, 0].as_slice(),
        false,
    )?;
    Ok(())
}

#[test]
fn weights_that_cancelled_may_come_apart(rt: HostRuntime) -> Result<(), Fail> {
    let alloc = rt.alloc();
    let marks = leaf(alloc, Node::Constant(LabelSet::Below(2)))?;
    let list = over(alloc, Node::Integers, leaf(alloc, Node::State)?)?;
    let term = over_two(alloc, Node::Product, marks, list)?.into_term(alloc)?;
    let first = weights(
        alloc,
        4,
        [(0, 1, 1), (0, 2, -1), (3, 2, 1), (3, 0, -1)].as_slice(),
    )?;
    let first = with_marks(alloc, first, [0, 1, 0, 0].as_slice())?;
    firsts_are(&rt, alloc, &term, first.as_slice(), [0, 1, 2, 3].as_slice())?;
    let second = weights(
        alloc,
        4,
        [(0, 1, 1), (0, 2, -1), (0, 0, 1), (0, 3, -1)].as_slice(),
    )?;
    let second = with_marks(alloc, second, [0, 1, 1, 0].as_slice())?;
    firsts_are(
        &rt,
        alloc,
        &term,
        second.as_slice(),
        [0, 1, 1, 0].as_slice(),
    )?;
    Ok(())
}

#[test]
fn distributions_add_up_over_classes(rt: HostRuntime) -> Result<(), Fail> {
    let alloc = rt.alloc();
    let term = over_states(alloc, Node::Distribution)?;
    let tenths = [(0, 1, 5), (0, 2, 5), (1, 0, 4), (1, 2, 6), (2, 2, 10)];
    let three = weights(alloc, 3, tenths.as_slice())?;
    firsts_are(&rt, alloc, &term, three.as_slice(), [0, 0, 0].as_slice())?;
    let inner = over(alloc, Node::Distribution, leaf(alloc, Node::State)?)?;
    let term = over(alloc, Node::Powerset, inner)?.into_term(alloc)?;
    let halves = weights(alloc, 2, [(0, 1, 1), (0, 2, 1), (1, 1, 2)].as_slice())?;
    let mut values = sets(alloc, 2, [].as_slice())?;
    values.insert(0, Value::Set(Items::from_vec(halves)))?;
    firsts_are(&rt, alloc, &term, values.as_slice(), [0, 1, 1].as_slice())?;
    Ok(())
}

#[test]
fn parts_of_a_sum_stay_apart(rt: HostRuntime) -> Result<(), Fail> {
    let alloc = rt.alloc();
    let end = leaf(alloc, Node::Constant(LabelSet::Below(1)))?;
    let letter = leaf(alloc, Node::Constant(LabelSet::Below(2)))?;
    let step = over_two(alloc, Node::Product, letter, leaf(alloc, Node::State)?)?;
    let term = over_two(alloc, Node::Sum, end, step)?.into_term(alloc)?;
    let mut values = Vec::new(alloc);
    values.push(Value::Inj(0, Boxed::new(alloc, Value::Label(0))?))?;
    for next in [0u32, 3] {
        let step = pair(alloc, Value::Label(0), Value::State(next))?;
        values.push(Value::Inj(1, Boxed::new(alloc, step)?))?;
    }
    values.push(Value::Inj(0, Boxed::new(alloc, Value::Label(0))?))?;
    firsts_are(
        &rt,
        alloc,
        &term,
        values.as_slice(),
        [0, 1, 1, 0].as_slice(),
    )?;
    Ok(())
}

#[test]
fn bags_count_members(rt: HostRuntime) -> Result<(), Fail> {
    let alloc = rt.alloc();
    let term = over_states(alloc, Node::Bag)?;
    let three = weights(alloc, 3, [(0, 1, 2), (0, 2, 2)].as_slice())?;
    firsts_are(&rt, alloc, &term, three.as_slice(), [0, 1, 1].as_slice())?;
    Ok(())
}
