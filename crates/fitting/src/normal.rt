//! Fitted trees as values in normal form.
ghost use Rattle.std.specs.Prelude.{◌≡◌, ◌≤◌, ◌^◌, false, length, slice_index, EachIndex, Err, IsTrue, IfOk};
ghost use Rattle.typing.specs.Values.{states_below};
ghost use Rattle.typing.specs.Equality.{are_equal};
ghost use Rattle.typing.specs.Bounds.{is_within, weights_hold};
ghost use Rattle.typing.specs.Fits.{fits};
ghost use Rattle.typing.specs.Order.{is_normal};
ghost use Rattle.fitting.specs.declared.fault.ScaleFault.TheVariants.{BadSum};
ghost use Rattle.fitting.specs.Scaling.{over_bound, lists_within, scaled as the_scaled, has_sums, IsFitted};

use crate::fault::ScaleFault;
use crate::fitted::Fitted;
use crate::scaling::scaled_at;
use crate::sums::sums_at;
use functor_terms::Term;
use std::alloc::{AllocError, Global};
use typing::{Value, relabel};

/// The numbers of n states, in order: what `scale` leaves states at.
pub fn own_numbers(alloc: Global, n: u32) -> Result<Vec<u32>, AllocError>
    ensures count { IfOk result (λ own. length own.items ≡ n) }
    ensures own { IfOk result (λ own. EachIndex own.items (λ i. slice_index own.items i ≡ i)) }
{
    let mut own = Vec::with_capacity(alloc, n as usize)?;
    for i in 0..n {
        own.push(i)?;
    }
    Ok(own)
}

/// The normal value of a fitted tree over the denominator l, of which the tree's denominators are
/// divisors. `own` has 0, 1, 2 and so on, one number for each state.
///
/// A tree of a text of at most 2^26 bytes has no list of more than 2^26 entries, so that no sum of
/// weights wraps.
///
/// `BadSum`: the scaled weights of some distribution in it do not sum to l.
pub fn scale(
    alloc: Global,
    term: &Term,
    own: &[u32],
    l: u64,
    fitted: &Fitted,
) -> Result<Value, ScaleFault>
    requires own { EachIndex own.now (λ i. slice_index own.now i ≡ i) }
    requires fitted { IsFitted term.now (length own.now) fitted.now }
    requires not_over { over_bound fitted.now ≡ false }
    requires small { IsTrue (lists_within (2 ^ 26) fitted.now) }
    requires bounded { l ≤ 2 ^ 40 }
    ensures fitting { IfOk result (λ value. IsTrue (fits term.now 0 value)) }
    ensures normal { IfOk result (λ value. IsTrue (is_normal term.now 0 value)) }
    ensures equal { IfOk result (λ value.
        IsTrue (are_equal term.now 0 value (the_scaled l term.now 0 fitted.now))) }
    ensures in_range { IfOk result (λ value. IsTrue (states_below (length own.now) value)) }
    ensures weighted { IfOk result (λ value. IsTrue (weights_hold l term.now 0 value)) }
    ensures in_bounds { IfOk result (λ value. IsTrue (is_within (2 ^ 106) value)) }
    ensures sums { IfOk result (λ _. IsTrue (has_sums l term.now 0 fitted.now)) }
    ensures bad_sum { result ≡ Err BadSum → has_sums l term.now 0 fitted.now ≡ false }
{
    // a term has a node
    term.is_term();
    let value = scaled_at(alloc, term, 0, l, fitted)?;
    if !sums_at(term, 0, l, &value) {
        return Err(ScaleFault::BadSum);
    }
    Ok(relabel(alloc, term, &value, own)?)
}
