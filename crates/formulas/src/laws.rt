//! Laws of truth, each the contract of a function that does nothing. `P` and `Q` are the points of
//! layered structures.
ghost use Rattle.formulas.specs.Laws.{EqualValuesPass, FormulasHoldByCases, NoOtherTruthsGoByCases, LongerListsChangeNoTruth, AlikePointsHaveOneTruth};

/// The test of values, by which a modality holds, finds two values one exactly where they are.
pub fn equal_values_pass()
    ensures { EqualValuesPass }
{}

/// A formula holds by cases on it, and no other truths go by cases. Formulas that are put behind a
/// list change no truth in it.
pub fn formulas_hold_by_cases<P>()
    ensures cases { FormulasHoldByCases P }
    ensures only { NoOtherTruthsGoByCases P }
    ensures longer { LongerListsChangeNoTruth P }
{}

/// A formula has one truth at points that are alike, by a relation that a test decides. For others
/// there is the lemma `holds-like` of `proofs/TruthLaws.antt`.
pub fn alike_points_have_one_truth<P, Q>()
    ensures { AlikePointsHaveOneTruth P Q }
{}
