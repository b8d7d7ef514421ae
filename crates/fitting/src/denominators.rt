//! The common denominator of fitted trees.
ghost use Rattle.std.specs.Prelude.{◌≡◌, ◌≤◌, ◌^◌, ◌↔◌, map, IfSome, IsSome, IsTrue};
ghost use Rattle.std.specs.List.{flat_map};
ghost use Rattle.fitting.specs.Scaling.{are_numerals, denominators, common_multiple, IsLeastMultiple};
ghost use Rattle.fitting.specs.Joining.{joined_with, joined_after, joined};

use crate::fitted::{Fitted, Weight};
use sqlite_items::Items;
use weights::lcm_within;

/// The greatest common denominator that a file may have.
const LIMIT: u64 = 1_099_511_627_776;

impl Fitted {
    /// The least common multiple of l and all denominators in it, and None exactly where it is
    /// greater than 2^40. Joined on, line by line, it is the common denominator of a file.
    pub fn join_denominators(&self, l: u64) -> Option<u64>
        requires numerals { IsTrue (are_numerals self.now) }
        requires positive { 1 ≤ l }
        requires bounded { l ≤ 2 ^ 40 }
        ensures value { IfSome result (λ m. m ≡ common_multiple l (denominators self.now)) }
        ensures within { IsSome result ↔ (common_multiple l (denominators self.now) ≤ 2 ^ 40) }
        ensures range { IfSome result (λ m. (l ≤ m) × (m ≤ 2 ^ 40)) }
        ensures least { IsLeastMultiple l (denominators self.now)
            (common_multiple l (denominators self.now)) }
    {
        join_all(self, l)
    }
}

/// l joined with all denominators in it.
#[cycle(join_all)]
fn join_all(fitted: &Fitted, l: u64) -> Option<u64>
    ensures { result ≡ joined l (denominators fitted.now) }
{
    match fitted {
        Fitted::State(_) | Fitted::Label(_) | Fitted::OverBound => Some(l),
        Fitted::Tuple(parts) => join_each(parts, l),
        Fitted::Inj(_, inner) => join_all(inner.get(), l),
        Fitted::Set(members) => join_each(members, l),
        Fitted::Weights(entries) => {
            let mut so_far = l;
            for (value, weight) in entries.as_slice() {
                so_far = join_weight(join_all(value, so_far)?, weight)?;
            }
            Some(so_far)
        }
    }
}

#[cycle(join_all)]
fn join_each(fitted: &Items<Fitted>, l: u64) -> Option<u64>
    ensures { result ≡ joined l (flat_map (λ qs. qs) (map denominators fitted.now)) }
{
    let mut so_far = l;
    for value in fitted.as_slice() {
        so_far = join_all(value, so_far)?;
    }
    Some(so_far)
}

/// l joined with the denominator of a weight.
fn join_weight(l: u64, weight: &Weight) -> Option<u64>
    ensures { result ≡ joined_after l weight.now }
{
    match weight {
        Weight::Fraction(n) => join(l, n.q),
        Weight::OverBound => Some(l),
    }
}

/// The least common multiple of two numbers from 1 on, if it is within the limit.
fn join(l: u64, q: u64) -> Option<u64>
    ensures { result ≡ joined_with l q }
{
    if l == 0 || q == 0 {
        return None;
    }
    lcm_within(l, q, LIMIT)
}
