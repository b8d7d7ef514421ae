//! Fractions of one denominator.

ghost use Rattle.std.specs.Prelude.{pos, ◌+ℤ◌, ◌-ℤ◌};
ghost use Rattle.weights.specs.MonoidLaws.{integers_laws, integers_undo};

use crate::monoid::{Group, Monoid};

/// Fractions of one denominator: the weight `a` stands for a / `denominator`.
#[derive(Clone, Copy, Debug)]
pub struct Scaled {
    pub denominator: u64,
}

impl Monoid for Scaled {
    type Elem = i128;

    ghost number = { λ _ a. a };

    ghost zero = { λ _. pos 0 };

    ghost add = { λ _ a b. a +ℤ b };

    fn zero(&self) -> i128 {
        0
    }

    fn add(&self, a: &i128, b: &i128) -> i128 {
        *a + *b
    }

    fn number(&self, a: &i128) -> i128 {
        *a
    }

    ghost laws = { λ _. integers_laws };
}

impl Group for Scaled {
    ghost sub = { λ _ a b. a -ℤ b };

    fn sub(&self, a: &i128, b: &i128) -> i128 {
        *a - *b
    }

    ghost undoes = { λ _. integers_undo };
}
