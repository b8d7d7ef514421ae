//! Laws of the definitions, each the contract of a function that does nothing. `P` are the points
//! of layered structures, `S` and `L` the shapes and labels of a system.
ghost use Rattle.formula_builder.specs.CitedLaws.{CitedFormulasKeepTheirTruths, CitedModalitiesAreOld, CitedFormulasAreNoMore};
ghost use Rattle.formula_builder.specs.SortedLayers.{ToldBlocksSeparate};

/// The formula of a state's block holds at the state, and fails at each state of another block.
pub fn told_blocks_separate<S, L>()
    ensures { ToldBlocksSeparate S L }
{}

/// Where a list is what is wanted and cited of another, each wanted formula holds under its new
/// number exactly where it held.
pub fn cited_formulas_keep_their_truths<P>()
    ensures { CitedFormulasKeepTheirTruths P }
{}

/// Such a list has no other modalities, and is no longer.
pub fn cited_formulas_are_old()
    ensures modalities { CitedModalitiesAreOld }
    ensures no_more { CitedFormulasAreNoMore }
{}
