//! Whole numbers.

ghost use Rattle.std.specs.Prelude.{pos, ◌+ℤ◌, ◌-ℤ◌};
ghost use Rattle.weights.specs.MonoidLaws.{integers_laws, integers_undo};

use crate::monoid::{Group, Monoid};

/// Whole numbers, which may be negative.
#[derive(Clone, Copy, Debug)]
pub struct Whole;

impl Monoid for Whole {
    type Elem = i128;

    ghost number = { λ _ a. a };

    ghost zero = { λ _. pos 0 };

    ghost add = { λ _ a b. a +ℤ b };

    fn zero(&self) -> i128 {
        0
    }

    fn add(&self, a: &i128, b: &i128) -> i128 {
        *a + *b
    }

    fn number(&self, a: &i128) -> i128 {
        *a
    }

    ghost laws = { λ _. integers_laws };
}

impl Group for Whole {
    ghost sub = { λ _ a b. a -ℤ b };

    fn sub(&self, a: &i128, b: &i128) -> i128 {
        *a - *b
    }

    ghost undoes = { λ _. integers_undo };
}
