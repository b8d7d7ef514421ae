//! Lists of values put in order, with the elements that tie joined.
ghost use Rattle.std.specs.Prelude.{◌≡◌, ◌+◌, ◌≤◌, ◌<◌, ◌^◌, ◌+ℤ◌, length, unsigned_abs, IfOk};
ghost use Rattle.std.specs.List.{sum_by};
ghost use Rattle.functor_terms.specs.Terms.{node_at};
ghost use Rattle.typing.specs.Equality.{plus_at};
ghost use Rattle.typing.specs.NormalForms.{IsSetOf, IsTotalOf, child_form, joined as the_joined};

use crate::order::compare_child;
use crate::value::Value;
use functor_terms::{Node, Term};
use std::alloc::{AllocError, Global};

/// The values at the first child of node p in order, each once.
pub(crate) fn in_order(term: &Term, p: u32, values: Vec<Value>) -> Vec<Value>
    requires { p < length term.now }
    ensures { IsSetOf (child_form term.now p 0).compare values.items result.items }
{
    let mut values = values;
    values.sort_unstable_by(|u, v| compare_child(term, p, 0, u, v));
    values.dedup_by(|v, kept| compare_child(term, p, 0, v, kept).is_eq());
    values
}

/// The values at the first child of node p in order, each once with its total, and none with 0.
pub(crate) fn totals(
    alloc: Global,
    term: &Term,
    p: u32,
    entries: Vec<(Value, i128)>,
) -> Result<Vec<(Value, i128)>, AllocError>
    requires node { p < length term.now }
    requires bounded { sum_by (λ e. unsigned_abs e.1) entries.items ≤ 2 ^ 126 }
    ensures { IfOk result (λ new. IsTotalOf (child_form term.now p 0).compare
        (plus_at (node_at term.now p)) entries.items new.items) }
{
    let mut entries = entries;
    entries.sort_unstable_by(|u, v| compare_child(term, p, 0, &u.0, &v.0));
    let mut new = joined(alloc, term, p, entries)?;
    new.retain(|e| e.1 != 0);
    Ok(new)
}

/// The entries with those that tie and stand next to each other joined.
fn joined(
    alloc: Global,
    term: &Term,
    p: u32,
    entries: Vec<(Value, i128)>,
) -> Result<Vec<(Value, i128)>, AllocError>
    requires node { p < length term.now }
    requires bounded { sum_by (λ e. unsigned_abs e.1) entries.items ≤ 2 ^ 126 }
    ensures { IfOk result (λ new. new.items ≡ the_joined (child_form term.now p 0).compare
        (plus_at (node_at term.now p)) entries.items) }
{
    let mut new = Vec::with_capacity(alloc, entries.len())?;
    let mut rest = entries.into_iter();
    let Some(mut last) = rest.next() else {
        return Ok(new);
    };
    while let Some((value, weight)) = rest.next() {
        if compare_child(term, p, 0, &value, &last.0).is_eq() {
            last.1 = join(term.node(p), last.1, weight);
            drop(value);
        } else {
            new.push(last)?;
            last = (value, weight);
        }
    }
    new.push(last)?;
    Ok(new)
}

/// Two weights joined as the node does.
fn join(node: &Node, a: i128, b: i128) -> i128
    requires { unsigned_abs a + unsigned_abs b ≤ 2 ^ 126 }
    ensures { result ≡ plus_at node.now a b }
{
    match node {
        _ => a + b,
    }
}
