//! Laws of the definitions, each the contract of a function that does nothing.
ghost use Rattle.structure_parser.specs.Laws.{OneReading, OneFault, FaultsRefuse};

use functor_terms::one_reading;
use typing::{equality_is_an_equivalence, normal_values_are_unique};

/// Bytes denote one coalgebra at most, and its denominator with it.
pub fn files_have_one_reading()
    ensures { OneReading }
{
    one_reading();
    equality_is_an_equivalence();
    normal_values_are_unique();
}

/// Bytes have one first fault at most.
pub fn files_have_one_fault()
    ensures { OneFault }
{
    one_reading();
}

/// Bytes with a fault denote no coalgebra.
pub fn faults_refuse_files()
    ensures { FaultsRefuse }
{
    one_reading();
}
