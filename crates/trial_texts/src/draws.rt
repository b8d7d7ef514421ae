//! The generator of the numbers that are drawn.
ghost use Rattle.std.specs.Prelude.{◌≡◌, ◌<◌};
ghost use Rattle.trial_texts.specs.Draws.{next, drawn, number, draw};

/// What the generator's number is multiplied by.
const MULTIPLIER: u64 = 6_364_136_223_846_793_005;

/// What is added to the product.
const INCREMENT: u64 = 1_442_695_040_888_963_407;

/// A generator of numbers.
#[derive(Drop)]
pub(crate) struct Draws {
    pub(crate) number: u64,
}

impl Draws {
    /// The next draw, a number below `bound`.
    pub(crate) fn below(&mut self, bound: u32) -> u32
        requires { 0 < bound }
        ensures number { self.new.number ≡ next self.old.number }
        ensures drawn { result ≡ drawn bound (next self.old.number) }
        ensures below { result < bound }
    {
        self.number = self.number.wrapping_mul(MULTIPLIER).wrapping_add(INCREMENT);
        (self.number / 0x2_0000_0000 % u64::from(bound)) as u32
    }

    /// The next two draws, the first below one bound and the second below another.
    pub(crate) fn pair(&mut self, bound: u32, other: u32) -> (u32, u32)
        requires first { 0 < bound }
        requires second { 0 < other }
        ensures number { self.new.number ≡ number 2 self.old.number }
        ensures first { result.0 ≡ draw bound 1 self.old.number }
        ensures second { result.1 ≡ draw other 2 self.old.number }
        ensures below { (result.0 < bound) × (result.1 < other) }
    {
        let first = self.below(bound);
        let second = self.below(other);
        (first, second)
    }
}
