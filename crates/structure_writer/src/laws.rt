//! Laws of the canonical text, each the contract of a function that does nothing.
ghost use Rattle.structure_writer.specs.Laws.{TextsSpell, FilesAreSpelled, TextsAreReadBack, OnlyBoundsRefuse, TextsAreOfFractions};

use rescaling::lowest_terms_stay;

/// The canonical text of a coalgebra spells it.
pub fn texts_spell()
    ensures { TextsSpell }
{}

/// A text that spells a coalgebra, and is accepted as a file, denotes one with the same term, names
/// and fractions: its denominator is the least, and that of the other a multiple of it.
pub fn files_are_spelled()
    ensures { FilesAreSpelled }
{}

/// Where the canonical text of a coalgebra is accepted as a file, it denotes a coalgebra with the
/// same term, names and fractions.
pub fn texts_are_read_back()
    ensures { TextsAreReadBack }
{}

/// The canonical text of a coalgebra that is not too long has no fault as a file, but that a weight
/// or the common denominator may be past its bound.
pub fn only_bounds_refuse_texts()
    ensures { OnlyBoundsRefuse }
{}

/// Coalgebras with the same fractions have one canonical text.
pub fn texts_are_of_fractions()
    ensures { TextsAreOfFractions }
{
    lowest_terms_stay();
}
