//! Why a row has no values.
use file_cut::CutFault;
use functor_terms::TermFault;
use std::alloc::{AllocError, AllocFailed};
use thiserror::Error;
use typing::TypeKind;

/// The first fault of a row; lines are numbered from 1 in the row.
#[derive(Debug, Drop, Error)]
pub enum RowFault {
    #[error("no functor")]
    NoFunctor,
    #[error("no structure line")]
    NoLine,
    #[error("{line}: {kind:?}")]
    Misfit { line: usize, kind: TypeKind },
    #[error("{line}: bound")]
    Bound { line: usize },
    #[error("{line}: sum")]
    Sum { line: usize },
    #[error("no memory")]
    NoMemory,
}

impl From<AllocError> for RowFault {
    fn from(_: AllocError) -> RowFault {
        RowFault::NoMemory
    }
}

impl<T: Drop> From<AllocFailed<T>> for RowFault {
    fn from(_: AllocFailed<T>) -> RowFault {
        RowFault::NoMemory
    }
}

impl From<TermFault> for RowFault {
    fn from(fault: TermFault) -> RowFault {
        match fault {
            TermFault::Grammar => RowFault::NoFunctor,
            TermFault::NoMemory => RowFault::NoMemory,
        }
    }
}

impl From<CutFault> for RowFault {
    fn from(fault: CutFault) -> RowFault {
        match fault {
            CutFault::Grammar => RowFault::NoLine,
            CutFault::NoMemory => RowFault::NoMemory,
        }
    }
}
