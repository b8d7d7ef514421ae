//! Where the states stand in block lines: the first rule.
ghost use Rattle.std.specs.Prelude.{◌≡◌, ◌<◌, ◌^◌, ℕ, List, length, IsNone, IfSome, IfOk};
ghost use Rattle.answer_checker.specs.Blocks.{BlockLine, times_in, line_of, line_numbers};
ghost use Rattle.answer_checker.specs.Rules.{StandOnce};
ghost use Rattle.answer_checker.specs.Steps.{put_again as the_put_again, IsPlaceOf, ArePlaces, IsNotOnce};

use crate::verdict::Reason;
use std::alloc::{AllocError, Global};

/// Where a state stands in block lines.
#[derive(Clone, Copy, Debug)]
pub enum Place {
    Nowhere,
    /// Once, in the line with this number, counted among block lines from 0.
    In(u32),
    /// More than once.
    Again,
}

/// The place of a state that stands in line k once more.
pub(crate) fn put_again(k: u32, place: Place) -> Place
    ensures { result ≡ the_put_again k place }
{
    match place {
        Place::Nowhere => Place::In(k),
        Place::In(_) => Place::Again,
        Place::Again => Place::Again,
    }
}

/// Why the states do not stand in block lines once each.
pub(crate) fn first_not_once(places: &[Place]) -> Option<Reason>
    requires few { length places.now < 2 ^ 32 }
    ensures once { IsNone result → (lines : List BlockLine) → ArePlaces lines places.now →
        StandOnce (length places.now) lines }
    ensures reason { IfSome result (λ reason. (lines : List BlockLine) →
        ArePlaces lines places.now → IsNotOnce (length places.now) lines reason) }
{
    let mut i = 0;
    for place in places {
        match place {
            Place::Nowhere => return Some(Reason::Missing(i)),
            Place::In(_) => {}
            Place::Again => return Some(Reason::Twice(i)),
        }
        i += 1;
    }
    None
}

/// The line of a place.
fn line_at(place: Place) -> u32
    ensures { (lines : List BlockLine) (i : ℕ) → IsPlaceOf lines i place → times_in lines i ≡ 1 →
        result ≡ line_of lines i }
{
    match place {
        Place::In(k) => k,
        _ => 0,
    }
}

/// The line of each state, where each stands once.
pub(crate) fn lines_at(alloc: Global, places: &[Place]) -> Result<Vec<u32>, AllocError>
    ensures { IfOk result (λ numbers. (lines : List BlockLine) → ArePlaces lines places.now →
        StandOnce (length places.now) lines →
        numbers.items ≡ line_numbers lines (length places.now)) }
{
    let mut numbers = Vec::with_capacity(alloc, places.len())?;
    for place in places {
        numbers.push(line_at(*place))?;
    }
    Ok(numbers)
}
