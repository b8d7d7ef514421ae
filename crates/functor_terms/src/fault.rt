//! Why no term was made.
use std::alloc::{AllocError, AllocFailed};
use thiserror::Error;

/// Why a text gave no term.
#[derive(Debug, Drop, Error)]
pub enum TermFault {
    /// The text spells no term.
    #[error("the text spells no functor")]
    Grammar,
    /// Memory was wanting.
    #[error("out of memory")]
    NoMemory,
}

impl From<AllocError> for TermFault {
    ghost use Rattle.functor_terms.specs.declared.fault.TermFault.TheVariants.{NoMemory};
    ghost use Rattle.std.specs.Prelude.{◌≡◌};

    ghost from_gives = { λ _ e. e ≡ NoMemory };

    fn from(_: AllocError) -> TermFault {
        TermFault::NoMemory
    }
}

impl<T: Drop> From<AllocFailed<T>> for TermFault {
    ghost use Rattle.functor_terms.specs.declared.fault.TermFault.TheVariants.{NoMemory};
    ghost use Rattle.std.specs.Prelude.{◌≡◌};

    ghost from_gives = { λ _ e. e ≡ NoMemory };

    fn from(_: AllocFailed<T>) -> TermFault {
        TermFault::NoMemory
    }
}

/// Why parts gave no larger part.
#[derive(Debug, Drop, Error)]
pub enum PartFault {
    /// The node takes another number of parts, its labels are none, or the result is past a bound.
    #[error("the node does not stand over these parts")]
    Malformed,
    /// Memory was wanting.
    #[error("out of memory")]
    NoMemory,
}

impl From<AllocError> for PartFault {
    ghost use Rattle.functor_terms.specs.declared.fault.PartFault.TheVariants.{NoMemory};
    ghost use Rattle.std.specs.Prelude.{◌≡◌};

    ghost from_gives = { λ _ e. e ≡ NoMemory };

    fn from(_: AllocError) -> PartFault {
        PartFault::NoMemory
    }
}

impl<T: Drop> From<AllocFailed<T>> for PartFault {
    ghost use Rattle.functor_terms.specs.declared.fault.PartFault.TheVariants.{NoMemory};
    ghost use Rattle.std.specs.Prelude.{◌≡◌};

    ghost from_gives = { λ _ e. e ≡ NoMemory };

    fn from(_: AllocFailed<T>) -> PartFault {
        PartFault::NoMemory
    }
}
