// The three sums of a structure with weights.
use weights::Ratio;

/// The weights of 0, 1 and 2, each the sum over the successors that have it.
#[derive(Clone, Copy, Debug, PartialEq, Eq)]
pub struct Sums {
    pub at_zero: Ratio,
    pub at_one: Ratio,
    pub at_two: Ratio,
}
