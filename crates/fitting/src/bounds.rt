//! Bounds of fitted trees.
ghost use Rattle.std.specs.Prelude.{◌≡◌, map};
ghost use Rattle.std.specs.List.{list_all, list_any};
ghost use Rattle.fitting.specs.Scaling.{over_bound as the_over_bound, is_over as weight_is_over, lists_within as the_lists_within};

use crate::fitted::{Fitted, Weight};
use sqlite_items::Items;

/// Whether the weight is over a bound.
fn is_over(weight: &Weight) -> bool
    ensures { result ≡ weight_is_over weight.now }
{
    match weight {
        Weight::OverBound => true,
        Weight::Fraction(_) => false,
    }
}

impl Fitted {
    /// Whether some weight or whole number in it is over its bound.
    pub fn over_bound(&self) -> bool
        ensures { result ≡ the_over_bound self.now }
    {
        is_over_bound(self)
    }

    /// Whether each weight list in it has at most so many entries.
    pub fn lists_within(&self, limit: usize) -> bool
        ensures { result ≡ the_lists_within limit self.now }
    {
        has_short_lists(self, limit)
    }
}

#[cycle(over_bound)]
fn is_over_bound(fitted: &Fitted) -> bool
    ensures { result ≡ the_over_bound fitted.now }
{
    match fitted {
        Fitted::State(_) | Fitted::Label(_) => false,
        Fitted::OverBound => true,
        Fitted::Tuple(parts) => some_over(parts),
        Fitted::Inj(_, inner) => is_over_bound(inner.get()),
        Fitted::Set(members) => some_over(members),
        Fitted::Weights(entries) => {
            for (value, weight) in entries.as_slice() {
                if is_over_bound(value) || is_over(weight) {
                    return true;
                }
            }
            false
        }
    }
}

#[cycle(over_bound)]
fn some_over(fitted: &Items<Fitted>) -> bool
    ensures { result ≡ list_any (λ b. b) (map the_over_bound fitted.now) }
{
    for value in fitted.as_slice() {
        if is_over_bound(value) {
            return true;
        }
    }
    false
}

#[cycle(lists_within)]
fn has_short_lists(fitted: &Fitted, limit: usize) -> bool
    ensures { result ≡ the_lists_within limit fitted.now }
{
    match fitted {
        Fitted::State(_) | Fitted::Label(_) | Fitted::OverBound => true,
        Fitted::Tuple(parts) => all_short(parts, limit),
        Fitted::Inj(_, inner) => has_short_lists(inner.get(), limit),
        Fitted::Set(members) => all_short(members, limit),
        Fitted::Weights(entries) => {
            for (value, _) in entries.as_slice() {
                if !has_short_lists(value, limit) {
                    return false;
                }
            }
            entries.len() <= limit
        }
    }
}

#[cycle(lists_within)]
fn all_short(fitted: &Items<Fitted>, limit: usize) -> bool
    ensures { result ≡ list_all (λ b. b) (map (the_lists_within limit) fitted.now) }
{
    for value in fitted.as_slice() {
        if !has_short_lists(value, limit) {
            return false;
        }
    }
    true
}
