//! Laws of the definitions, each the contract of a function that does nothing.
ghost use Rattle.fitting.specs.Laws.{ListsAreShort, WeightsKeepFractions};

/// No list in what a line denotes has more entries than the line has bytes. So the lists of a file
/// within its length are as short as `scale` asks.
pub fn lists_are_short()
    ensures { ListsAreShort }
{}

/// Over a multiple of its denominator, as `join_denominators` answers one, a weight is kept as the
/// fraction that it is.
pub fn weights_keep_their_fractions()
    ensures { WeightsKeepFractions }
{}
