//! How a run ended, with what its line needs.
ghost use Rattle.std.specs.Prelude.{◌≡◌};
ghost use Rattle.copar_run.specs.declared.status.Status.TheVariants.{NoMemory};

use crate::Status;
use std::alloc::{AllocError, AllocFailed};

/// How a run ended, and the word that is told of it: that which names no state, where the status
/// says so, and else none that counts.
#[derive(Clone, Copy, Debug)]
pub struct Ended<'w> {
    pub status: Status,
    pub word: &'w str,
}

impl<'w> Ended<'w> {
    /// An end of which no word is told.
    pub(crate) fn by(status: Status) -> Ended<'w>
        ensures same { result.status ≡ status }
    {
        Ended { status, word: "" }
    }
}

impl<'w> From<AllocError> for Ended<'w> {
    ghost use Rattle.std.specs.Prelude.{◌≡◌};
    ghost use Rattle.copar_run.specs.declared.status.Status.TheVariants.{NoMemory};

    ghost from_gives = { λ _ e. e.status ≡ NoMemory };

    fn from(_: AllocError) -> Ended<'w> {
        Ended::by(Status::NoMemory)
    }
}

impl<'w, T: Drop> From<AllocFailed<T>> for Ended<'w> {
    ghost use Rattle.std.specs.Prelude.{◌≡◌};
    ghost use Rattle.copar_run.specs.declared.status.Status.TheVariants.{NoMemory};

    ghost from_gives = { λ _ e. e.status ≡ NoMemory };

    fn from(_: AllocFailed<T>) -> Ended<'w> {
        Ended::by(Status::NoMemory)
    }
}
