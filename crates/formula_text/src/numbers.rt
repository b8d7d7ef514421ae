//! Numbers and fractions in parts.
ghost use Rattle.std.specs.Prelude.{◌≡◌, ◌<◌, ◌≤◌, ◌^◌, map, IfOk};
ghost use Rattle.formula_text.specs.Numbers.{number_below as number_in, fraction as signed_fraction};
ghost use Rattle.formula_text.specs.Numbers.{lowest_over as over_in, fraction_of_pieces as of_pieces};
ghost use Rattle.formula_text.specs.Numbers.{fraction_behind as behind_sign, fraction_in as is_fraction};
ghost use Rattle.weights.specs.Fractions.{gcd_of};

use crate::pieces::pieces;
use itoa::Buffer;
use std::alloc::{AllocError, Global};
use weights::{Ratio, gcd};

/// One more than the largest label and the largest denominator.
pub const LABEL_BOUND: u128 = 1_099_511_627_777;

/// One more than the largest numerator, 2^106.
const NUMERATOR_BOUND: u128 = 81_129_638_414_606_681_695_789_005_144_065;

/// The number below a bound whose decimal text the part is. The bound is at most 2^107.
pub fn number_below(part: &[u8], bound: u128) -> Option<u128>
    requires { bound ≤ 2 ^ 107 }
    ensures { result ≡ number_in bound part.now }
{
    let mut n = 0;
    for digit in part {
        n = n * 10 + digit.saturating_sub(b'0') as u128;
        if n >= bound {
            return None;
        }
    }
    let mut text = Buffer::new();
    if n < bound && text.format(n).as_bytes() == part {
        Some(n)
    } else {
        None
    }
}

/// The fraction whose text the part is.
pub fn fraction_in(alloc: Global, part: &[u8]) -> Result<Option<Ratio>, AllocError>
    ensures { IfOk result (λ found. found ≡ is_fraction part.now) }
{
    match part {
        [] => Ok(None),
        [b'-', rest @ ..] => fraction_behind(alloc, true, rest),
        _ => fraction_behind(alloc, false, part),
    }
}

/// The fraction that the bytes behind the sign spell.
fn fraction_behind(alloc: Global, negative: bool, text: &[u8]) -> Result<Option<Ratio>, AllocError>
    ensures { IfOk result (λ found. found ≡ behind_sign negative text.now) }
{
    let found = pieces(alloc, text, b'/')?;
    Ok(fraction_of_pieces(negative, found.as_slice()))
}

/// A whole number, or a numerator and a denominator.
fn fraction_of_pieces(negative: bool, found: &[&[u8]]) -> Option<Ratio>
    ensures { result ≡ of_pieces negative (map (λ piece. piece.now) found.now) }
{
    match found {
        [n] => fraction(negative, number_below(n, NUMERATOR_BOUND)?, 1),
        [n, d] => {
            let above = number_below(n, NUMERATOR_BOUND)?;
            let below = number_below(d, LABEL_BOUND)?;
            lowest_over(negative, above, below as u64)
        }
        _ => None,
    }
}

/// The fraction of a numerator and a denominator from 2 on, if it is in lowest terms.
fn lowest_over(negative: bool, n: u128, d: u64) -> Option<Ratio>
    requires { n ≤ 2 ^ 106 }
    ensures { result ≡ over_in negative n d }
{
    if d < 2 {
        return None;
    }
    if common_divisor(n, d) != 1 {
        return None;
    }
    fraction(negative, n, d)
}

/// The greatest common divisor of a numerator and a denominator from 2 on. The first step of the
/// rule leads to numbers of 64 bits.
#[tactic(auto, using(crate::proofs::DigitLaws::gcd_step))]
fn common_divisor(n: u128, d: u64) -> u64
    requires { 2 ≤ d }
    ensures { result ≡ gcd_of n d }
{
    gcd(d, (n % d as u128) as u64)
}

/// The fraction of a numerator and a denominator with a sign.
fn fraction(negative: bool, n: u128, d: u64) -> Option<Ratio>
    requires { n ≤ 2 ^ 106 }
    ensures { result ≡ signed_fraction negative n d }
{
    let p = n as i128;
    if !negative {
        Some(Ratio { p, q: d })
    } else if n == 0 {
        None
    } else {
        Some(Ratio { p: -p, q: d })
    }
}
