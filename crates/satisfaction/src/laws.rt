//! Laws of the definitions, each the contract of a function that does nothing.
ghost use Rattle.satisfaction.specs.Laws.{EquivalentStatesHaveOneTruth, TheSameOfCoalgebras, FormulasHoldByCases, LongerListsChangeNoTruth};

/// Each formula has one truth at equivalent states, whatever the kinds of their layers.
pub fn equivalent_states_have_one_truth()
    ensures values { EquivalentStatesHaveOneTruth }
    ensures content { TheSameOfCoalgebras }
{}

/// A formula holds at a structure by cases on it, and formulas that are put behind a list change no
/// truth in it.
pub fn formulas_hold_by_cases()
    ensures cases { FormulasHoldByCases }
    ensures longer { LongerListsChangeNoTruth }
{}
