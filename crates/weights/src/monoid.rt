//! Weights that can be added, and weights that can be subtracted too.
//!
//! The laws hold where the sums are within 2^126. An element is told by its number, and nothing is
//! promised of the number of a sum but that it is no larger than both: so the greatest of two
//! numbers, or their bitwise or, is an addition too.

ghost use Rattle.std.specs.Prelude.{◌≡◌, ℤ};
ghost use Rattle.weights.specs.Monoids.{CanAdd, MonoidLaws, Undoes};

/// Weights that can be added.
pub trait Monoid {
    /// A weight.
    type Elem: Copy;

    /// The whole number that stands for a weight.
    ghost number: { Self → Self.Elem → ℤ };

    /// The weight of nothing.
    ghost zero: { Self → Self.Elem };

    /// The sum of two weights.
    ghost add: { Self → Self.Elem → Self.Elem → Self.Elem };

    /// The weight of nothing.
    fn zero(&self) -> Self::Elem
        ensures value { result ≡ zero self.now };

    /// The sum of two weights, if the absolute values of their numbers sum to at most 2^126.
    fn add(&self, a: &Self::Elem, b: &Self::Elem) -> Self::Elem
        requires within { CanAdd (number self.now) a.now b.now }
        ensures sum { result ≡ add self.now a.now b.now };

    /// The whole number that stands for a weight.
    fn number(&self, a: &Self::Elem) -> i128
        ensures value { result ≡ number self.now a.now };

    /// Addition is commutative and associative, nothing is neutral, and numbers tell weights apart.
    ghost laws: { (self : Self) → MonoidLaws (number self) (zero self) (add self) };
}

/// Weights that can be subtracted too.
pub trait Group: Monoid {
    /// The difference of two weights.
    ghost sub: { Self → Self.Elem → Self.Elem → Self.Elem };

    /// The difference of two weights, if the absolute values of their numbers sum to at most 2^126.
    fn sub(&self, a: &Self::Elem, b: &Self::Elem) -> Self::Elem
        requires within { CanAdd (Self.number self.now) a.now b.now }
        ensures difference { result ≡ sub self.now a.now b.now };

    /// To subtract what was added gives the weight back.
    ghost undoes: { (self : Self) → Undoes (Self.number self) (Self.add self) (sub self) };
}
