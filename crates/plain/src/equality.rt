//! Equality of two values at a node of a term.
ghost use Rattle.std.specs.Prelude.{◌≡◌, ◌<◌, ◌≤◌, ◌^◌, ◌&&◌, length, map, IsTrue};
ghost use Rattle.std.specs.Cmp.Lexicographic.{pointwise};
ghost use Rattle.std.specs.List.{list_all};
ghost use Rattle.functor_terms.specs.Terms.{children_at};
ghost use Rattle.typing.specs.Bounds.{is_bounded, absolute_sum};
ghost use Rattle.typing.specs.Equality.{are_equal as the_are_equal, each_place, has};
ghost use Rattle.plain.specs.Pairs.{child_test, have_equal, agree_at, total_at};

use functor_terms::{Node, Term};
use sqlite_items::at;
use typing::Value;

/// Whether two values are equal at node p.
#[cycle(are_equal)]
pub fn are_equal(term: &Term, p: u32, u: &Value, v: &Value) -> bool
    requires node { p < length term.now }
    requires left { IsTrue (is_bounded u.now) }
    requires right { IsTrue (is_bounded v.now) }
    ensures { result ≡ the_are_equal term.now p u.now v.now }
{
    term.is_term();
    match term.node(p) {
        Node::State => u.state() == v.state(),
        Node::Constant(_) | Node::Naturals => u.label() == v.label(),
        Node::Product => equal_places(term, p, u.parts(), v.parts()),
        Node::Sum => u.index() == v.index() && equal_at(term, p, u.index(), u.inner(), v.inner()),
        Node::Power(_) => equal_lists(term, p, u.parts(), v.parts()),
        Node::Powerset => same_members(term, p, u.parts(), v.parts()),
        Node::Bag | Node::Distribution | Node::Integers | Node::Rationals => {
            same_totals(term, p, u.entries(), v.entries())
        }
    }
}

/// Whether they are equal at the k-th child of node p; all are where there is none.
#[cycle(are_equal)]
fn equal_at(term: &Term, p: u32, k: u32, u: &Value, v: &Value) -> bool
    requires node { p < length term.now }
    requires left { IsTrue (is_bounded u.now) }
    requires right { IsTrue (is_bounded v.now) }
    ensures { result ≡ child_test term.now p k u.now v.now }
{
    term.is_term();
    match at(term.children(p), k as usize) {
        Some(child) => are_equal(term, *child, u, v),
        None => true,
    }
}

/// Each place at its own child.
#[cycle(are_equal)]
fn equal_places(term: &Term, p: u32, us: &[Value], vs: &[Value]) -> bool
    requires node { p < length term.now }
    requires left { IsTrue (list_all is_bounded us.now) }
    requires right { IsTrue (list_all is_bounded vs.now) }
    ensures { result ≡
        each_place (map (the_are_equal term.now) (children_at term.now p)) us.now vs.now }
{
    term.is_term();
    let (mut children, mut left, mut right) = (term.children(p), us, vs);
    while let Some((child, more)) = children.split_first() {
        match (left.split_first(), right.split_first()) {
            (Some((u, more_left)), Some((v, more_right))) => {
                if !are_equal(term, *child, u, v) {
                    return false;
                }
                (children, left, right) = (more, more_left, more_right);
            }
            (None, None) => return true,
            (None, Some(_)) => return false,
            (Some(_), None) => return false,
        }
    }
    true
}

/// As many parts, and part by part equal at the first child.
#[cycle(are_equal)]
fn equal_lists(term: &Term, p: u32, us: &[Value], vs: &[Value]) -> bool
    requires node { p < length term.now }
    requires left { IsTrue (list_all is_bounded us.now) }
    requires right { IsTrue (list_all is_bounded vs.now) }
    ensures { result ≡ pointwise (child_test term.now p 0) us.now vs.now }
{
    let (mut left, mut right) = (us, vs);
    while let Some((u, more_left)) = left.split_first() {
        match right.split_first() {
            Some((v, more_right)) => {
                if !equal_at(term, p, 0, u, v) {
                    return false;
                }
                (left, right) = (more_left, more_right);
            }
            None => return false,
        }
    }
    right.is_empty()
}

/// Whether each of either has an equal element in the other, at the first child.
#[cycle(are_equal)]
fn same_members(term: &Term, p: u32, us: &[Value], vs: &[Value]) -> bool
    requires node { p < length term.now }
    requires left { IsTrue (list_all is_bounded us.now) }
    requires right { IsTrue (list_all is_bounded vs.now) }
    ensures { result ≡ (have_equal term.now p us.now vs.now
        && have_equal term.now p vs.now us.now) }
{
    each_among(term, p, us, vs) && each_among(term, p, vs, us)
}

/// Whether each of us has an equal element among vs, at the first child.
#[cycle(are_equal)]
fn each_among(term: &Term, p: u32, us: &[Value], vs: &[Value]) -> bool
    requires node { p < length term.now }
    requires left { IsTrue (list_all is_bounded us.now) }
    requires right { IsTrue (list_all is_bounded vs.now) }
    ensures { result ≡ have_equal term.now p us.now vs.now }
{
    let mut left = us;
    while let Some((u, more)) = left.split_first() {
        if !is_among(term, p, u, vs) {
            return false;
        }
        left = more;
    }
    true
}

/// Whether one of vs is equal to u at the first child.
#[cycle(are_equal)]
fn is_among(term: &Term, p: u32, u: &Value, vs: &[Value]) -> bool
    requires node { p < length term.now }
    requires left { IsTrue (is_bounded u.now) }
    requires right { IsTrue (list_all is_bounded vs.now) }
    ensures { result ≡ has (child_test term.now p 0) vs.now u.now }
{
    let mut right = vs;
    while let Some((v, more)) = right.split_first() {
        if equal_at(term, p, 0, v, u) {
            return true;
        }
        right = more;
    }
    false
}

/// Whether each element of either has the same total in both.
#[cycle(are_equal)]
fn same_totals(term: &Term, p: u32, us: &[(Value, i128)], vs: &[(Value, i128)]) -> bool
    requires node { p < length term.now }
    requires left { IsTrue (list_all (λ e. is_bounded e.0) us.now) }
    requires right { IsTrue (list_all (λ e. is_bounded e.0) vs.now) }
    requires left_sum { absolute_sum us.now ≤ 2 ^ 126 }
    requires right_sum { absolute_sum vs.now ≤ 2 ^ 126 }
    ensures { result ≡ (agree_at term.now p us.now vs.now us.now
        && agree_at term.now p us.now vs.now vs.now) }
{
    totals_agree(term, p, us, vs, us) && totals_agree(term, p, us, vs, vs)
}

/// Whether each of these elements has the same total in both.
#[cycle(are_equal)]
fn totals_agree(
    term: &Term,
    p: u32,
    us: &[(Value, i128)],
    vs: &[(Value, i128)],
    elements: &[(Value, i128)],
) -> bool
    requires node { p < length term.now }
    requires left { IsTrue (list_all (λ e. is_bounded e.0) us.now) }
    requires right { IsTrue (list_all (λ e. is_bounded e.0) vs.now) }
    requires each { IsTrue (list_all (λ e. is_bounded e.0) elements.now) }
    requires left_sum { absolute_sum us.now ≤ 2 ^ 126 }
    requires right_sum { absolute_sum vs.now ≤ 2 ^ 126 }
    ensures { result ≡ agree_at term.now p us.now vs.now elements.now }
{
    let mut rest = elements;
    while let Some((e, more)) = rest.split_first() {
        if total(term, p, us, &e.0) != total(term, p, vs, &e.0) {
            return false;
        }
        rest = more;
    }
    true
}

/// The sum of the weights of the entries that are equal to a at the first child.
#[cycle(are_equal)]
fn total(term: &Term, p: u32, entries: &[(Value, i128)], a: &Value) -> i128
    requires node { p < length term.now }
    requires left { IsTrue (list_all (λ e. is_bounded e.0) entries.now) }
    requires right { IsTrue (is_bounded a.now) }
    requires sum { absolute_sum entries.now ≤ 2 ^ 126 }
    ensures { result ≡ total_at term.now p entries.now a.now }
{
    let mut sum = 0i128;
    let mut rest = entries;
    while let Some((e, more)) = rest.split_first() {
        if equal_at(term, p, 0, &e.0, a) {
            sum += e.1;
        }
        rest = more;
    }
    sum
}
