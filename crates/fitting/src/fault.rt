//! Why a tree was not fitted, or a fitted tree not scaled.
use std::alloc::{AllocError, AllocFailed};
use thiserror::Error;
use typing::TypeKind;

/// Why a tree gave no fitted tree.
#[derive(Debug, Drop, Error)]
pub enum FitFault {
    /// The tree does not denote a value; the kind is that of its first misfit.
    #[error("the tree does not fit")]
    Misfit(TypeKind),
    /// Memory was wanting.
    #[error("out of memory")]
    NoMemory,
}

impl From<AllocError> for FitFault {
    ghost use Rattle.fitting.specs.declared.fault.FitFault.TheVariants.{NoMemory};
    ghost use Rattle.std.specs.Prelude.{◌≡◌};

    ghost from_gives = { λ _ e. e ≡ NoMemory };

    fn from(_: AllocError) -> FitFault {
        FitFault::NoMemory
    }
}

impl<T: Drop> From<AllocFailed<T>> for FitFault {
    ghost use Rattle.fitting.specs.declared.fault.FitFault.TheVariants.{NoMemory};
    ghost use Rattle.std.specs.Prelude.{◌≡◌};

    ghost from_gives = { λ _ e. e ≡ NoMemory };

    fn from(_: AllocFailed<T>) -> FitFault {
        FitFault::NoMemory
    }
}

/// Why a fitted tree gave no value.
#[derive(Debug, Drop, Error)]
pub enum ScaleFault {
    /// The weights of some distribution in it do not sum to 1.
    #[error("a distribution does not sum to 1")]
    BadSum,
    /// Memory was wanting.
    #[error("out of memory")]
    NoMemory,
}

impl From<AllocError> for ScaleFault {
    ghost use Rattle.fitting.specs.declared.fault.ScaleFault.TheVariants.{NoMemory};
    ghost use Rattle.std.specs.Prelude.{◌≡◌};

    ghost from_gives = { λ _ e. e ≡ NoMemory };

    fn from(_: AllocError) -> ScaleFault {
        ScaleFault::NoMemory
    }
}
