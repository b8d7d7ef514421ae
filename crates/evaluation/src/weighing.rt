//! Whether the weights of a structure have three sums.

ghost use Rattle.std.specs.Prelude.{◌≡◌, ◌≤◌, ◌^◌, ◌↔◌, IsTrue, pos};
ghost use Rattle.formulas.specs.Truth.{is_value};
ghost use Rattle.formula_checker.specs.LayerValues.{joint_with, weights_of};
ghost use Rattle.typing.specs.Bounds.{absolute_sum};
ghost use Rattle.typing.specs.Equality.{the_sum};
ghost use Rattle.functor_terms.specs.declared.node.Node.{Node};
ghost use Rattle.weights.specs.Fractions.{lowest_terms};

use modalities::Three;
use typing::Value;
use weights::{Ratio, ratio_of};

/// The sum of the weights of the entries with a trit.
fn joint_weight(entries: &[(Value, i128)], trits: &[u8], trit: u8) -> i128
    requires small { absolute_sum entries.now ≤ 2 ^ 106 }
    ensures { result ≡ joint_with the_sum entries.now trits.now trit }
{
    let mut sum = 0;
    let mut i = entries.len().min(trits.len());
    while i > 0 {
        i -= 1;
        if trits[i] == trit {
            sum = entries[i].1 + sum;
        }
    }
    sum
}

/// The sum of those weights over the denominator is a fraction, both in lowest terms.
fn has_weight(
    entries: &[(Value, i128)],
    trits: &[u8],
    trit: u8,
    denominator: u64,
    wanted: &Ratio,
) -> bool
    requires small { absolute_sum entries.now ≤ 2 ^ 106 }
    requires positive { 1 ≤ denominator }
    ensures { IsTrue result
        ↔ (lowest_terms (joint_with the_sum entries.now trits.now trit) denominator
        ≡ wanted.now) }
{
    ratio_of(joint_weight(entries, trits, trit), denominator) == *wanted
}

/// The weights of the entries, over a denominator and by the trits, have the three sums of a value.
pub(crate) fn has_weights(
    entries: &[(Value, i128)],
    trits: &[u8],
    denominator: u64,
    value: &Three,
) -> bool
    requires small { absolute_sum entries.now ≤ 2 ^ 106 }
    requires positive { 1 ≤ denominator }
    ensures { (m : Node) → result
        ≡ is_value (weights_of m denominator entries.now trits.now) value.now }
{
    match value {
        Three::Triple(sums) => {
            let sums = sums.get();
            has_weight(entries, trits, 2, denominator, &sums.at_two)
                && has_weight(entries, trits, 1, denominator, &sums.at_one)
                && has_weight(entries, trits, 0, denominator, &sums.at_zero)
        }
        Three::Label(_) => false,
        Three::Trit(_) => false,
        Three::Trits(_) => false,
        Three::Tagged(_, _) => false,
        Three::Members(_) => false,
    }
}
