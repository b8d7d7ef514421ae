//! Laws of the definitions, each the contract of a function that does nothing.
ghost use Rattle.trial_files.specs.Laws.{TrialTextsAreShort, TrialTextsAreAccepted, TrialTextsHaveNoFault};

use structure_parser::faults_refuse_files;

/// A trial input has fewer than 2^24 bytes.
pub fn trial_texts_are_short()
    ensures { TrialTextsAreShort }
{}

/// A trial input denotes a coalgebra, with as many states as are asked for. So it has no fault as a
/// file.
pub fn trial_texts_are_accepted()
    ensures accepted { TrialTextsAreAccepted }
    ensures no_fault { TrialTextsHaveNoFault }
{
    faults_refuse_files();
}
