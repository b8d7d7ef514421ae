//! The sums of distributions.
ghost use Rattle.std.specs.Prelude.{◌≡◌, ◌<◌, ◌≤◌, ◌^◌, pos, length, map, unsigned_abs, IsTrue};
ghost use Rattle.std.specs.List.{list_all, sum_by};
ghost use Rattle.std.specs.Ordering.{int_eq};
ghost use Rattle.functor_terms.specs.Terms.{children_at};
ghost use Rattle.functor_terms.specs.declared.node.Node.TheVariants.{Distribution};
ghost use Rattle.typing.specs.Bounds.{is_bounded, are_any, sums_hold, joint_weight, each_holds, entries_hold};
ghost use Rattle.typing.specs.Fits.{check_at};
ghost use Rattle.fitting.specs.Scaling.{child_sums};

use functor_terms::{Node, Term};
use sqlite_items::at;
use typing::Value;

/// Whether the weights of each distribution in a value at node p sum to l.
#[cycle(sums)]
pub(crate) fn sums_at(term: &Term, p: u32, l: u64, value: &Value) -> bool
    requires node { p < length term.now }
    requires bounded { IsTrue (is_bounded value.now) }
    ensures { result ≡ sums_hold are_any l term.now p value.now }
{
    term.is_term();
    match term.node(p) {
        Node::State | Node::Constant(_) | Node::Naturals => true,
        Node::Product => sums_in_places(term, p, l, value.parts()),
        Node::Sum => sums_at_child(term, p, value.index(), l, value.inner()),
        Node::Power(_) | Node::Powerset => sums_in_all(term, p, l, value.parts()),
        Node::Distribution => {
            is_sum(l, value.entries()) && sums_in_entries(term, p, l, value.entries())
        }
        Node::Bag | Node::Integers | Node::Rationals => {
            sums_in_entries(term, p, l, value.entries())
        }
    }
}

/// The same at the k-th child of node p; no value passes where there is none.
#[cycle(sums)]
fn sums_at_child(term: &Term, p: u32, k: u32, l: u64, value: &Value) -> bool
    requires node { p < length term.now }
    requires bounded { IsTrue (is_bounded value.now) }
    ensures { result ≡ child_sums l term.now p k value.now }
{
    term.is_term();
    match at(term.children(p), k as usize) {
        Some(child) => sums_at(term, *child, l, value),
        None => false,
    }
}

/// The parts of a tuple, each at its own child of node p.
#[cycle(sums)]
fn sums_in_places(term: &Term, p: u32, l: u64, values: &[Value]) -> bool
    requires node { p < length term.now }
    requires bounded { IsTrue (list_all is_bounded values.now) }
    ensures { result
        ≡ each_holds (map (sums_hold are_any l term.now) (children_at term.now p)) values.now }
{
    term.is_term();
    let (mut children, mut rest) = (term.children(p), values);
    while let Some((child, more_children)) = children.split_first() {
        let Some((value, more)) = rest.split_first() else {
            return true;
        };
        if !sums_at(term, *child, l, value) {
            return false;
        }
        (children, rest) = (more_children, more);
    }
    true
}

/// Values that all stand at the first child of node p.
#[cycle(sums)]
fn sums_in_all(term: &Term, p: u32, l: u64, values: &[Value]) -> bool
    requires node { p < length term.now }
    requires bounded { IsTrue (list_all is_bounded values.now) }
    ensures { result ≡ list_all (child_sums l term.now p 0) values.now }
{
    for value in values {
        if !sums_at_child(term, p, 0, l, value) {
            return false;
        }
    }
    true
}

/// The values of a weight list, all at the first child of node p.
#[cycle(sums)]
fn sums_in_entries(term: &Term, p: u32, l: u64, entries: &[(Value, i128)]) -> bool
    requires node { p < length term.now }
    requires bounded { IsTrue (list_all (λ e. is_bounded e.0) entries.now) }
    ensures { result ≡ entries_hold (child_sums l term.now p 0) entries.now }
{
    for (value, _) in entries {
        if !sums_at_child(term, p, 0, l, value) {
            return false;
        }
    }
    true
}

/// Whether the weights sum to l.
fn is_sum(l: u64, entries: &[(Value, i128)]) -> bool
    requires bounded { sum_by (λ e. unsigned_abs e.1) entries.now ≤ 2 ^ 126 }
    ensures { result ≡ int_eq (joint_weight Distribution entries.now) (pos l) }
{
    let mut sum = 0i128;
    for (_, weight) in entries {
        sum += *weight;
    }
    sum == i128::from(l)
}
