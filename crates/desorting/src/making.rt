//! The making of the system of sorted states.

ghost use Rattle.std.specs.Prelude.{IfOk};
ghost use Rattle.desorting.specs.Desorted.{IsDesorted};

use crate::numbering::{Numbers, numbered};
use crate::system::System;
use edge_store::EdgeStore;
use layers::LayerTable;
use std::alloc::{AllocError, Global};
use structures::{Structures, structures_of};
use typing::Coalgebra;

/// The system of sorted states of a coalgebra: one for each structure, and the root structure of a
/// state has the state's number. The error is want of memory, and comes also where there would be
/// 2^26 sorted states or edges, as in no file.
pub fn desort(alloc: Global, c: &Coalgebra) -> Result<System, AllocError>
    ensures desorted { IfOk result (λ s.
        IsDesorted c.now.term c.now.values.items c.now.denominator s) }
{
    c.term.is_term();
    let states = c.names.len();
    let Structures {
        places,
        sources,
        targets,
    } = structures_of(alloc, c)?;
    let mut table = LayerTable::new(alloc);
    let Numbers { shapes, labels } = numbered(alloc, &c.term, &places, targets.len(), &mut table)?;
    let count = places.len() as u32;
    let store = EdgeStore::of_arrays(alloc, count, sources, labels, targets)?;
    let iface = table.finish(alloc, c.denominator)?;
    Ok(System {
        iface,
        shapes,
        store,
        states,
    })
}
