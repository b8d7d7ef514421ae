//! Laws of the definitions, each the contract of a function that does nothing.
ghost use Rattle.rescaling.specs.Laws.{RescalingKeepsEquality, RescalingKeepsOrder, RescalingKeepsNormalValues, RescalingKeepsSums, RescalingKeepsFits, RescalingKeepsStates, RescalingCommutes, RescalingTells, ScaledValuesRescale, NormalFormsRescale, SameFractionsSameStability, SameFractionsSameEquivalence, LowestTermsStay, RescaledWeightsStay};

/// Values that fit a node are equal there after rescaling exactly where they were before.
pub fn rescaling_keeps_equality()
    ensures { RescalingKeepsEquality }
{}

/// Values that fit a node compare after rescaling as they did before, and are normal exactly where
/// they were.
pub fn rescaling_keeps_order()
    ensures order { RescalingKeepsOrder }
    ensures normal { RescalingKeepsNormalValues }
{}

/// A rescaled value has the form and the states that it had and, over the larger denominator, the
/// sums.
pub fn rescaling_keeps_form()
    ensures fits { RescalingKeepsFits }
    ensures states { RescalingKeepsStates }
    ensures sums { RescalingKeepsSums }
{}

/// The states of a value may be relabelled before it is rescaled, or after.
pub fn rescaling_commutes_with_relabelling()
    ensures { RescalingCommutes }
{}

/// Values that are rescaled to one value are one value.
pub fn rescaling_tells_values_apart()
    ensures { RescalingTells }
{}

/// Over a multiple of a common denominator a fitted tree has the value that it has over the
/// denominator, rescaled; and so it is with the normal forms of the two.
pub fn values_over_a_multiple()
    ensures scaled { ScaledValuesRescale }
    ensures normal { NormalFormsRescale }
{}

/// Coalgebras with the same fractions have the same stable lists, and the same states are
/// equivalent.
pub fn same_fractions_same_equivalence()
    ensures stable { SameFractionsSameStability }
    ensures equivalent { SameFractionsSameEquivalence }
{}

/// A weight that is printed in lowest terms is printed alike over a denominator and over a multiple
/// of it.
pub fn lowest_terms_stay()
    ensures multiple { LowestTermsStay }
    ensures rescaled { RescaledWeightsStay }
{}
