//! The order of values at a node of a term.
ghost use Rattle.std.specs.Prelude.{◌≡◌, ◌<◌, length, map};
ghost use Rattle.std.specs.Cmp.Lexicographic.{slice_cmp};
ghost use Rattle.functor_terms.specs.Terms.{children_at};
ghost use Rattle.typing.specs.Order.{compare as the_compare, form, each_cmp, entry_cmp};
ghost use Rattle.typing.specs.NormalForms.{child_form};

use crate::value::Value;
use functor_terms::{Node, Term};
use sqlite_items::at;
use std::cmp::Ordering;

/// How two values compare at node p.
#[cycle(compare)]
pub fn compare(term: &Term, p: u32, u: &Value, v: &Value) -> Ordering
    requires { p < length term.now }
    ensures { result ≡ the_compare term.now p u.now v.now }
{
    term.is_term();
    match term.node(p) {
        Node::State => u.state().cmp(&v.state()),
        Node::Constant(_) | Node::Naturals => u.label().cmp(&v.label()),
        Node::Product => compare_places(term, p, u.parts(), v.parts()),
        Node::Sum => match u.index().cmp(&v.index()) {
            Ordering::Equal => compare_child(term, p, u.index(), u.inner(), v.inner()),
            ordering => ordering,
        },
        Node::Power(_) | Node::Powerset => compare_lists(term, p, u.parts(), v.parts()),
        Node::Bag | Node::Distribution | Node::Integers | Node::Rationals => {
            compare_entries(term, p, u.entries(), v.entries())
        }
    }
}

/// How two values compare at the k-th child of node p; all are equal where there is none.
#[cycle(compare)]
pub(crate) fn compare_child(term: &Term, p: u32, k: u32, u: &Value, v: &Value) -> Ordering
    requires { p < length term.now }
    ensures { result ≡ (child_form term.now p k).compare u.now v.now }
{
    term.is_term();
    match at(term.children(p), k as usize) {
        Some(child) => compare(term, *child, u, v),
        None => Ordering::Equal,
    }
}

/// Each place at its own child.
#[cycle(compare)]
fn compare_places(term: &Term, p: u32, us: &[Value], vs: &[Value]) -> Ordering
    requires { p < length term.now }
    ensures { result ≡ each_cmp (map (form term.now) (children_at term.now p)) us.now vs.now }
{
    term.is_term();
    let (mut children, mut left, mut right) = (term.children(p), us, vs);
    while let Some((child, more)) = children.split_first() {
        match (left.split_first(), right.split_first()) {
            (Some((u, more_left)), Some((v, more_right))) => match compare(term, *child, u, v) {
                Ordering::Equal => (children, left, right) = (more, more_left, more_right),
                ordering => return ordering,
            },
            (None, Some(_)) => return Ordering::Less,
            (Some(_), None) => return Ordering::Greater,
            (None, None) => return Ordering::Equal,
        }
    }
    Ordering::Equal
}

/// Element by element at the first child, a proper prefix first.
#[cycle(compare)]
fn compare_lists(term: &Term, p: u32, us: &[Value], vs: &[Value]) -> Ordering
    requires { p < length term.now }
    ensures { result ≡ slice_cmp (child_form term.now p 0).compare us.now vs.now }
{
    let (mut left, mut right) = (us, vs);
    while let Some((u, more_left)) = left.split_first() {
        match right.split_first() {
            Some((v, more_right)) => match compare_child(term, p, 0, u, v) {
                Ordering::Equal => (left, right) = (more_left, more_right),
                ordering => return ordering,
            },
            None => return Ordering::Greater,
        }
    }
    if right.is_empty() {
        Ordering::Equal
    } else {
        Ordering::Less
    }
}

/// The same for values with weights.
#[cycle(compare)]
fn compare_entries(term: &Term, p: u32, us: &[(Value, i128)], vs: &[(Value, i128)]) -> Ordering
    requires { p < length term.now }
    ensures { result ≡ slice_cmp (entry_cmp (child_form term.now p 0).compare) us.now vs.now }
{
    let (mut left, mut right) = (us, vs);
    while let Some((u, more_left)) = left.split_first() {
        match right.split_first() {
            Some((v, more_right)) => match compare_entry(term, p, u, v) {
                Ordering::Equal => (left, right) = (more_left, more_right),
                ordering => return ordering,
            },
            None => return Ordering::Greater,
        }
    }
    if right.is_empty() {
        Ordering::Equal
    } else {
        Ordering::Less
    }
}

/// By the value at the first child, then by the weight.
#[cycle(compare)]
fn compare_entry(term: &Term, p: u32, u: &(Value, i128), v: &(Value, i128)) -> Ordering
    requires { p < length term.now }
    ensures { result ≡ entry_cmp (child_form term.now p 0).compare u.now v.now }
{
    match compare_child(term, p, 0, &u.0, &v.0) {
        Ordering::Equal => u.1.cmp(&v.1),
        ordering => ordering,
    }
}
