//! Values with their states relabelled, in normal form.
ghost use Rattle.std.specs.Prelude.{◌≡◌, ℕ, ◌<◌, length, map, nat_lt, IsTrue, IfOk};
ghost use Rattle.std.specs.List.{list_all, AllZip};
ghost use Rattle.functor_terms.specs.Terms.{children_at};
ghost use Rattle.functor_terms.specs.Lists.{Zip3};
ghost use Rattle.typing.specs.Values.{relabelled as the_relabelled, states_below};
ghost use Rattle.typing.specs.Equality.{are_equal};
ghost use Rattle.typing.specs.Fits.{fits};
ghost use Rattle.typing.specs.Order.{is_normal};
ghost use Rattle.typing.specs.NormalForms.{is_ready, each_ready, child_check, IsRelabelledAt, IsRelabelledChild, IsRelabelledEntry};
ghost use Rattle.typing.specs.Bounds.{is_bounded};

use crate::joined::{in_order, totals};
use crate::value::Value;
use functor_terms::{Node, Term};
use sqlite_items::{Boxed, Items};
use std::alloc::{AllocError, Global};

/// The normal form of the value with each state replaced by its label.
pub fn relabel(
    alloc: Global,
    term: &Term,
    value: &Value,
    labels: &[u32],
) -> Result<Value, AllocError>
    requires fitting { IsTrue (fits term.now 0 value.now) }
    requires within { IsTrue (states_below (length labels.now) value.now) }
    requires bounded { IsTrue (is_bounded value.now) }
    ensures fitting { IfOk result (λ new. IsTrue (fits term.now 0 new)) }
    ensures normal { IfOk result (λ new. IsTrue (is_normal term.now 0 new)) }
    ensures equal { IfOk result (λ new.
        IsTrue (are_equal term.now 0 new (the_relabelled labels.now value.now))) }
    ensures in_range { IfOk result (λ new. (m : ℕ) →
        IsTrue (list_all (λ i. nat_lt i m) labels.now) → IsTrue (states_below m new)) }
{
    relabel_at(alloc, term, 0, value, labels)
}

/// The same at node p.
#[cycle(relabel)]
fn relabel_at(
    alloc: Global,
    term: &Term,
    p: u32,
    value: &Value,
    labels: &[u32],
) -> Result<Value, AllocError>
    requires node { p < length term.now }
    requires ready { IsTrue (is_ready (length labels.now) (fits term.now p) value.now) }
    ensures { IfOk result (IsRelabelledAt term.now labels.now p value.now) }
{
    term.is_term();
    let node = term.node(p);
    match value {
        Value::State(i) => Ok(Value::State(labels[*i as usize])),
        Value::Label(n) => Ok(Value::Label(*n)),
        Value::Tuple(parts) => match node {
            Node::Product => {
                let new = relabel_places(alloc, term, p, parts.as_slice(), labels)?;
                Ok(Value::Tuple(Items::from_vec(new)))
            }
            _ => {
                let new = relabel_each(alloc, term, p, parts.as_slice(), labels)?;
                Ok(Value::Tuple(Items::from_vec(new)))
            }
        },
        Value::Inj(k, inner) => {
            let new = relabel_child(alloc, term, p, *k, inner.get(), labels)?;
            Ok(Value::Inj(*k, Boxed::new(alloc, new)?))
        }
        Value::Set(members) => {
            let new = relabel_each(alloc, term, p, members.as_slice(), labels)?;
            Ok(Value::Set(Items::from_vec(in_order(term, p, new))))
        }
        Value::Weights(entries) => {
            let new = relabel_entries(alloc, term, p, entries.as_slice(), labels)?;
            Ok(Value::Weights(Items::from_vec(totals(alloc, term, p, new)?)))
        }
    }
}

/// The same at the k-th child of node p.
#[cycle(relabel)]
fn relabel_child(
    alloc: Global,
    term: &Term,
    p: u32,
    k: u32,
    value: &Value,
    labels: &[u32],
) -> Result<Value, AllocError>
    requires node { p < length term.now }
    requires ready { IsTrue (is_ready (length labels.now) (child_check term.now p k) value.now) }
    ensures { IfOk result (IsRelabelledChild term.now labels.now p k value.now) }
{
    term.is_term();
    let children = term.children(p);
    let child = children[k as usize];
    relabel_at(alloc, term, child, value, labels)
}

/// The parts of a tuple, each at its own child of node p.
#[cycle(relabel)]
fn relabel_places(
    alloc: Global,
    term: &Term,
    p: u32,
    values: &[Value],
    labels: &[u32],
) -> Result<Vec<Value>, AllocError>
    requires node { p < length term.now }
    requires ready { IsTrue (each_ready (length labels.now)
        (map (fits term.now) (children_at term.now p)) values.now) }
    ensures { IfOk result (λ new. Zip3 (IsRelabelledAt term.now labels.now)
        (children_at term.now p) values.now new.items) }
{
    term.is_term();
    let mut new = Vec::with_capacity(alloc, values.len())?;
    let (mut children, mut rest) = (term.children(p), values);
    while let Some((child, more_children)) = children.split_first() {
        let Some((value, more)) = rest.split_first() else {
            unreachable!()
        };
        new.push(relabel_at(alloc, term, *child, value, labels)?)?;
        (children, rest) = (more_children, more);
    }
    Ok(new)
}

/// The values in a list, all at the first child of node p.
#[cycle(relabel)]
fn relabel_each(
    alloc: Global,
    term: &Term,
    p: u32,
    values: &[Value],
    labels: &[u32],
) -> Result<Vec<Value>, AllocError>
    requires node { p < length term.now }
    requires ready { IsTrue (list_all
        (is_ready (length labels.now) (child_check term.now p 0)) values.now) }
    ensures { IfOk result (λ new.
        AllZip (IsRelabelledChild term.now labels.now p 0) values.now new.items) }
{
    let mut new = Vec::with_capacity(alloc, values.len())?;
    for value in values {
        new.push(relabel_child(alloc, term, p, 0, value, labels)?)?;
    }
    Ok(new)
}

/// The values with weights, all at the first child of node p.
#[cycle(relabel)]
fn relabel_entries(
    alloc: Global,
    term: &Term,
    p: u32,
    entries: &[(Value, i128)],
    labels: &[u32],
) -> Result<Vec<(Value, i128)>, AllocError>
    requires node { p < length term.now }
    requires ready { IsTrue (list_all
        (λ e. is_ready (length labels.now) (child_check term.now p 0) e.0) entries.now) }
    ensures { IfOk result (λ new.
        AllZip (IsRelabelledEntry term.now labels.now p) entries.now new.items) }
{
    let mut new = Vec::with_capacity(alloc, entries.len())?;
    for (value, weight) in entries {
        new.push((relabel_child(alloc, term, p, 0, value, labels)?, *weight))?;
    }
    Ok(new)
}
