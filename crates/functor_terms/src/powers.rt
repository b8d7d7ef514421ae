//! Powers, read from their tokens.
ghost use Rattle.std.specs.Prelude.{◌≡◌, ◌∷◌, []};
ghost use Rattle.functor_terms.specs.Terms.{depth_limit};
ghost use Rattle.functor_terms.specs.Reading.{Gives, raised as the_raised, powers_from};

use crate::ahead::{Ahead, Wanted};
use crate::fault::TermFault;
use crate::label_reading::labels;
use crate::made::made_over_one;
use crate::node::Node;
use crate::part::{DEPTH_LIMIT, TermPart};
use std::alloc::Global;

/// The power of a base by the exponent behind a caret.
fn raised<'a>(
    alloc: Global,
    base: TermPart<'a>,
    ahead: Ahead<'a>,
) -> Result<(TermPart<'a>, Ahead<'a>), TermFault>
    ensures { Gives result (the_raised base.entry ahead.entry) }
{
    let (labels, ahead) = labels(alloc, ahead)?;
    made_over_one(alloc, Node::Power(labels), base, ahead)
}

/// The base to the power of the exponents that follow, one after another.
pub fn powers<'a>(
    alloc: Global,
    base: TermPart<'a>,
    ahead: Ahead<'a>,
) -> Result<(TermPart<'a>, Ahead<'a>), TermFault>
    ensures { Gives result (powers_from depth_limit base.entry ahead.entry) }
{
    let mut power = base;
    let mut left = ahead;
    let mut room = DEPTH_LIMIT;
    'powers: while 0 < room {
        match left.behind(Wanted::Caret) {
            Ok(behind) => {
                let (next, rest) = raised(alloc, power, behind)?;
                power = next;
                left = rest;
                room -= 1;
            }
            Err(same) => return Ok((power, same)),
        }
    }
    Err(TermFault::Grammar)
}
