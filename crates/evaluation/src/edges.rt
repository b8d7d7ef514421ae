//! The structures of a coalgebra, and the edges of each.

ghost use Rattle.std.specs.Prelude.{IfOk};
ghost use Rattle.evaluation.specs.Rows.{AreLaidOut};

use crate::firsts::first_edges;
use std::alloc::{AllocError, Global};
use structures::{Places, Structures, structures_of};
use typing::Coalgebra;

/// The structures of a coalgebra. The edges of structure x lead to the `targets` from `firsts[x]`
/// up to `firsts[x + 1]`.
#[derive(Drop)]
pub(crate) struct LaidOut<'a> {
    pub places: Places<'a>,
    pub firsts: Vec<u32>,
    pub targets: Vec<u32>,
}

/// The structures of a coalgebra, laid out.
pub(crate) fn laid_out<'a>(alloc: Global, c: &'a Coalgebra) -> Result<LaidOut<'a>, AllocError>
    ensures { IfOk result (λ s. AreLaidOut c.now.term c.now.values.items s.places s.firsts.items
        s.targets.items) }
{
    c.term.is_term();
    let Structures {
        places,
        sources,
        targets,
    } = structures_of(alloc, c)?;
    let firsts = first_edges(alloc, places.len(), sources.as_slice())?;
    Ok(LaidOut {
        places,
        firsts,
        targets,
    })
}
