//! Why a text was not cut.
use std::alloc::{AllocError, AllocFailed};
use thiserror::Error;

/// Why `cut_tree` or `cut_line` answers no tree.
#[derive(Debug, Drop, Error)]
pub enum CutFault {
    /// The text spells no tree, or is no line.
    #[error("the text is not of the grammar of structure lines")]
    Grammar,
    /// No memory was left.
    #[error("no memory is left")]
    NoMemory,
}

impl From<AllocError> for CutFault {
    ghost use Rattle.file_cut.specs.declared.fault.CutFault.TheVariants.{NoMemory};
    ghost use Rattle.std.specs.Prelude.{◌≡◌};

    ghost from_gives = { λ _ e. e ≡ NoMemory };

    fn from(_: AllocError) -> CutFault {
        CutFault::NoMemory
    }
}

impl<T: Drop> From<AllocFailed<T>> for CutFault {
    ghost use Rattle.file_cut.specs.declared.fault.CutFault.TheVariants.{NoMemory};
    ghost use Rattle.std.specs.Prelude.{◌≡◌};

    ghost from_gives = { λ _ e. e ≡ NoMemory };

    fn from(_: AllocFailed<T>) -> CutFault {
        CutFault::NoMemory
    }
}
