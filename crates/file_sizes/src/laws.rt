//! Laws of the definitions, each the contract of a function that does nothing.
ghost use Rattle.file_sizes.specs.Laws.{AcceptedFilesAreFew, QuotientsAreNoLarger, QuotientsAreFew};

/// What a file is read as has fewer than 2^26 structures, sorted states and edges.
pub fn accepted_files_are_few()
    ensures { AcceptedFilesAreFew }
{}

/// A quotient has no more structures, sorted states and edges than the coalgebra. So it has fewer
/// than 2^26 of each where the coalgebra has.
pub fn quotients_are_no_larger()
    ensures no_larger { QuotientsAreNoLarger }
    ensures few { QuotientsAreFew }
{}
