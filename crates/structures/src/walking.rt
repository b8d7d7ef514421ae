//! The walk over all structures: each is expanded in turn, those that are added too.

ghost use Rattle.std.specs.Prelude.{◌≡◌, ◌<◌, ◌^◌, length, IfOk, IsTrue};
ghost use Rattle.std.specs.List.{list_all};
ghost use Rattle.typing.specs.Values.{states_below};
ghost use Rattle.typing.specs.Fits.{fits};
ghost use Rattle.typing.specs.Bounds.{is_within};
ghost use Rattle.typing.specs.Layers.{roots_of};
ghost use Rattle.structures.specs.Structures.{AreStructures};
ghost use Rattle.structures.specs.Walk.{IsWalked};

use crate::children::child_count;
use crate::counting::room_for;
use crate::expand::expand;
use crate::places::Places;
use functor_terms::Term;
use std::alloc::{AllocError, Global};
use typing::{Coalgebra, Value};

/// Numbered structures, and for each edge the structure that it leaves and the one to which it
/// leads. Sources ascend.
#[derive(Drop)]
pub struct Structures<'a> {
    pub places: Places<'a>,
    pub sources: Vec<u32>,
    pub targets: Vec<u32>,
}

/// The root structures of the states, with room for so many structures.
fn roots<'a>(alloc: Global, values: &'a [Value], room: usize) -> Result<Places<'a>, AllocError>
    ensures { IfOk result (λ p. p ≡ roots_of values.now) }
{
    let mut places = Places::with_capacity(alloc, room)?;
    for value in values {
        places.push(0, value)?;
    }
    Ok(places)
}

/// How many structures, or edges, are too many for a refiner. No file that is read has so many.
const TOO_MANY: usize = 67_108_864;

/// Expands each structure. Where there are too many of them, or of their edges, it ends as without
/// memory.
fn follow<'a>(
    term: &Term,
    values: &'a [Value],
    places: &mut Places<'a>,
    sources: &mut Vec<u32>,
    targets: &mut Vec<u32>,
) -> Result<(), AllocError>
    requires few { length places.old < 2 ^ 26 }
    requires few_edges { length targets.old.items < 2 ^ 26 }
    requires begun { IsWalked term.now values.now places.old sources.old.items targets.old.items 0 }
    ensures walked { IfOk result (λ _. IsWalked term.now values.now places.new sources.new.items
        targets.new.items (length places.new)) }
    ensures few { IfOk result (λ _. length places.new < 2 ^ 26) }
    ensures few_edges { IfOk result (λ _. length targets.new.items < 2 ^ 26) }
{
    term.is_term();
    let mut next = 0;
    while next < places.len() {
        let (node, value) = places.get(next);
        let more = child_count(term, node, value);
        if TOO_MANY - places.len() <= more || TOO_MANY - targets.len() <= more {
            return Err(AllocError);
        }
        expand(term, next as u32, node, value, places, sources, targets)?;
        next += 1;
    }
    Ok(())
}

/// The structures of values that fit, and their edges.
fn walked<'a>(alloc: Global, term: &Term, values: &'a [Value]) -> Result<Structures<'a>, AllocError>
    requires fitting { IsTrue (list_all (fits term.now 0) values.now) }
    requires in_range { IsTrue (list_all (states_below (length values.now)) values.now) }
    requires within { IsTrue (list_all (is_within (2 ^ 106)) values.now) }
    ensures walked { IfOk result (λ s. IsWalked term.now values.now s.places s.sources.items
        s.targets.items (length s.places)) }
    ensures few { IfOk result (λ s. length s.places < 2 ^ 26) }
    ensures few_edges { IfOk result (λ s. length s.targets.items < 2 ^ 26) }
{
    if TOO_MANY <= values.len() {
        return Err(AllocError);
    }
    let room = room_for(values);
    let mut places = roots(alloc, values, room.structures)?;
    let mut sources = Vec::with_capacity(alloc, room.edges)?;
    let mut targets = Vec::with_capacity(alloc, room.edges)?;
    follow(term, values, &mut places, &mut sources, &mut targets)?;
    Ok(Structures {
        places,
        sources,
        targets,
    })
}

/// The structures of a coalgebra and their edges. The root structure of a state has the state's
/// number. The error is want of memory, and comes also where there would be 2^26 structures or
/// edges, as in no file.
pub fn structures_of<'a>(alloc: Global, c: &'a Coalgebra) -> Result<Structures<'a>, AllocError>
    ensures structures { IfOk result (λ s. AreStructures c.now.term c.now.values.items s.places
        s.sources.items s.targets.items) }
{
    c.term.is_term();
    let found = walked(alloc, &c.term, c.values.as_slice())?;
    Ok(found)
}
