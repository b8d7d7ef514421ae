//! Whether a list of labels is stable.
ghost use Rattle.std.specs.Prelude.{◌≡◌, ◌↔◌, ◌<◌, length, map, IsTrue, IfOk};
ghost use Rattle.std.specs.List.{list_all};
ghost use Rattle.typing.specs.Values.{relabelled as the_relabelled, states_below};
ghost use Rattle.typing.specs.Bounds.{is_bounded};
ghost use Rattle.typing.specs.Stable.{IsStable};
ghost use Rattle.plain.specs.Pairs.{are_like, all_alike};

use crate::equality::are_equal;
use functor_terms::Term;
use std::alloc::{AllocError, Global};
use typing::{Value, relabelled};

/// Whether the labels are stable: as many as states, and states with one label have structures
/// that are equal under the labels.
pub fn is_stable(
    alloc: Global,
    term: &Term,
    values: &[Value],
    labels: &[u32],
) -> Result<bool, AllocError>
    requires within { IsTrue (list_all (states_below (length labels.now)) values.now) }
    requires bounded { IsTrue (list_all is_bounded values.now) }
    ensures { IfOk result (λ stable. IsTrue stable ↔ IsStable term.now values.now labels.now) }
{
    if labels.len() != values.len() {
        return Ok(false);
    }
    let new = all_relabelled(alloc, values, labels)?;
    Ok(are_alike(term, labels, new.as_slice()))
}

/// The values with each state replaced by its label.
pub(crate) fn all_relabelled(
    alloc: Global,
    values: &[Value],
    labels: &[u32],
) -> Result<Vec<Value>, AllocError>
    requires { IsTrue (list_all (states_below (length labels.now)) values.now) }
    ensures { IfOk result (λ new. new.items ≡ map (the_relabelled labels.now) values.now) }
{
    let mut new = Vec::new(alloc);
    for value in values {
        new.push(relabelled(alloc, value, labels)?)?;
    }
    Ok(new)
}

/// Whether values with one label are equal.
fn are_alike(term: &Term, labels: &[u32], values: &[Value]) -> bool
    requires bounded { IsTrue (list_all is_bounded values.now) }
    ensures { result ≡ all_alike term.now labels.now values.now labels.now values.now }
{
    let (mut rest, mut left) = (labels, values);
    while let Some((label, more)) = rest.split_first() {
        let Some((u, more_left)) = left.split_first() else {
            return true;
        };
        if !is_like(term, *label, u, labels, values) {
            return false;
        }
        (rest, left) = (more, more_left);
    }
    true
}

/// Whether each value with this label is equal to u.
fn is_like(term: &Term, label: u32, u: &Value, labels: &[u32], values: &[Value]) -> bool
    requires one { IsTrue (is_bounded u.now) }
    requires bounded { IsTrue (list_all is_bounded values.now) }
    ensures { result ≡ are_like term.now label u.now labels.now values.now }
{
    term.is_term();
    let (mut rest, mut right) = (labels, values);
    while let Some((other, more)) = rest.split_first() {
        let Some((v, more_right)) = right.split_first() else {
            return true;
        };
        if label == *other && !are_equal(term, 0, u, v) {
            return false;
        }
        (rest, right) = (more, more_right);
    }
    true
}
