//! The edges of one structure, and the structures to which they lead.

ghost use Rattle.std.specs.Prelude.{◌≡◌, ◌+◌, ◌<◌, ◌^◌, [], ◌∷◌, ◌++◌, cond, length, unwrap_or, IfOk};
ghost use Rattle.typing.specs.Values.{state};
ghost use Rattle.typing.specs.Layers.{is_state_at, leaves_of, layers_in};
ghost use Rattle.structures.specs.Structures.{repeated};
ghost use Rattle.structures.specs.Walk.{targets_of};

use crate::children::{child, child_count};
use crate::places::Places;
use functor_terms::{Node, Term};
use std::alloc::AllocError;
use typing::Value;

/// Where the edge to a child leads: to its state, or to a new structure.
fn lead<'a>(
    term: &Term,
    node: u32,
    value: &'a Value,
    places: &mut Places<'a>,
) -> Result<u32, AllocError>
    requires inside { node < length term.now }
    requires few { length places.old < 2 ^ 32 }
    ensures target { IfOk result (λ y. y ≡
        cond (is_state_at term.now (node, value.now)) (unwrap_or (state value.now) 0)
        (length places.old)) }
    ensures places { IfOk result (λ _.
        places.new ≡ places.old ++ layers_in term.now ((node, value.now) ∷ [])) }
{
    match term.node(node) {
        Node::State => Ok(value.state().unwrap_or(0)),
        _ => {
            let next = places.len() as u32;
            places.push(node, value)?;
            Ok(next)
        }
    }
}

/// Adds the edges of a structure, and the structures at layer nodes to which they lead.
pub(crate) fn expand<'a>(
    term: &Term,
    source: u32,
    node: u32,
    value: &'a Value,
    places: &mut Places<'a>,
    sources: &mut Vec<u32>,
    targets: &mut Vec<u32>,
) -> Result<(), AllocError>
    requires inside { node < length term.now }
    requires few { length places.old + length (leaves_of term.now (node, value.now)) < 2 ^ 32 }
    ensures places { IfOk result (λ _.
        places.new ≡ places.old ++ layers_in term.now (leaves_of term.now (node, value.now))) }
    ensures sources { IfOk result (λ _. sources.new.items ≡
        sources.old.items ++ repeated source (length (leaves_of term.now (node, value.now)))) }
    ensures targets { IfOk result (λ _. targets.new.items ≡
        targets.old.items
        ++ targets_of term.now (length places.old) (leaves_of term.now (node, value.now))) }
{
    term.is_term();
    for i in 0..child_count(term, node, value) {
        let (q, u) = child(term, node, value, i);
        let target = lead(term, q, u, places)?;
        sources.push(source)?;
        targets.push(target)?;
    }
    Ok(())
}
