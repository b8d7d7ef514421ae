//! Finite coalgebras.
ghost use Rattle.std.specs.Prelude.{◌≡◌, ◌≤◌, ◌<◌, ◌^◌, IsTrue, length};
ghost use Rattle.std.specs.List.{list_all};
ghost use Rattle.typing.specs.Values.{states_below};
ghost use Rattle.typing.specs.Bounds.{is_within, weights_hold};
ghost use Rattle.typing.specs.Fits.{fits};
ghost use Rattle.typing.specs.Order.{is_normal};

use crate::names::Names;
use crate::value::Value;
use functor_terms::Term;

/// A finite coalgebra: for each state its name and its structure, a normal value that fits the
/// term. A weight at a distribution, or at weights in the fractions, is kept as a multiple of
/// 1/denominator.
#[derive(Drop)]
pub struct Coalgebra<'a> {
    pub term: Term<'a>,
    pub names: Names<'a>,
    /// From 1 to 2^40.
    pub denominator: u64,
    pub values: Vec<Value>,
    ghost few: { length names < 2 ^ 32 },
    ghost one_each: { length values.items ≡ length names },
    ghost positive: { 1 ≤ denominator },
    ghost bounded: { denominator ≤ 2 ^ 40 },
    ghost fitting: { IsTrue (list_all (fits term 0) values.items) },
    ghost normal: { IsTrue (list_all (is_normal term 0) values.items) },
    ghost in_range: { IsTrue (list_all (states_below (length names)) values.items) },
    ghost weighted: { IsTrue (list_all (weights_hold denominator term 0) values.items) },
    ghost in_bounds: { IsTrue (list_all (is_within (2 ^ 106)) values.items) },
}
