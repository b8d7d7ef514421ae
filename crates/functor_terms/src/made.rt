//! Nodes over parts that were read.
ghost use Rattle.std.specs.Prelude.{◌≡◌, ◌<◌, [], ◌∷◌, length, IsTrue};
ghost use Rattle.functor_terms.specs.Terms.{takes, HasLabels};
ghost use Rattle.functor_terms.specs.Reading.{Gives, made_over as the_made_over};

use crate::ahead::Ahead;
use crate::fault::{PartFault, TermFault};
use crate::node::Node;
use crate::part::TermPart;
use std::alloc::Global;

/// The node over parts, if they are small. It takes as many, and its labels are labels.
pub fn made_over<'a>(
    alloc: Global,
    node: Node<'a>,
    parts: Vec<TermPart<'a>>,
    ahead: Ahead<'a>,
) -> Result<(TermPart<'a>, Ahead<'a>), TermFault>
    requires arity { IsTrue (takes node (length parts.items)) }
    requires labels { HasLabels node }
    ensures { Gives result (the_made_over node.entry parts.entry.items ahead.entry) }
{
    match TermPart::over(alloc, node, parts) {
        Ok(part) => Ok((part, ahead)),
        Err(PartFault::Malformed) => Err(TermFault::Grammar),
        Err(PartFault::NoMemory) => Err(TermFault::NoMemory),
    }
}

/// The node over one part.
pub fn made_over_one<'a>(
    alloc: Global,
    node: Node<'a>,
    part: TermPart<'a>,
    ahead: Ahead<'a>,
) -> Result<(TermPart<'a>, Ahead<'a>), TermFault>
    requires arity { IsTrue (takes node 1) }
    requires labels { HasLabels node }
    ensures { Gives result (the_made_over node.entry (part.entry ∷ []) ahead.entry) }
{
    let mut parts = Vec::new(alloc);
    parts.push(part)?;
    made_over(alloc, node, parts, ahead)
}
