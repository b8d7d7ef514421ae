//! Why lines of answers were not read.
use std::alloc::{AllocError, AllocFailed};
use thiserror::Error;

/// Why lines of answers were not read.
#[derive(Debug, Drop, Error)]
pub enum DagFault {
    /// The first line that is none of the forms.
    #[error("line {line} is none of the forms")]
    BadLine { line: u32 },
    /// Memory was wanting.
    #[error("out of memory")]
    NoMemory,
}

impl From<AllocError> for DagFault {
    ghost use Rattle.formula_text.specs.declared.fault.DagFault.TheVariants.{NoMemory};
    ghost use Rattle.std.specs.Prelude.{◌≡◌};

    ghost from_gives = { λ _ e. e ≡ NoMemory };

    fn from(_: AllocError) -> DagFault {
        DagFault::NoMemory
    }
}

impl<T: Drop> From<AllocFailed<T>> for DagFault {
    ghost use Rattle.formula_text.specs.declared.fault.DagFault.TheVariants.{NoMemory};
    ghost use Rattle.std.specs.Prelude.{◌≡◌};

    ghost from_gives = { λ _ e. e ≡ NoMemory };

    fn from(_: AllocFailed<T>) -> DagFault {
        DagFault::NoMemory
    }
}
