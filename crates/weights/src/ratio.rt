//! Fractions in lowest terms, with the greatest common divisor and the least common multiple.
//!
//! Source: Euclid's algorithm (Elements, book VII).

ghost use Rattle.std.specs.Prelude.{◌≡◌, ◌≤◌, ◌↔◌, unsigned_abs, IfSome, IsSome};
ghost use Rattle.std.specs.Int.{IsGcd};
ghost use Rattle.weights.specs.Fractions.{gcd_of, IsLcm, lcm_of, IsLowest, lowest_terms};

/// A fraction p / q. What this crate answers is in lowest terms, with q at least 1.
#[derive(Clone, Copy, Debug, PartialEq, Eq)]
pub struct Ratio {
    pub p: i128,
    pub q: u64,
}

/// The greatest common divisor of two numbers. That of 0 and 0 is 0.
pub fn gcd(a: u64, b: u64) -> u64
    ensures greatest { IsGcd a b result }
    ensures value { result ≡ gcd_of a b }
{
    if b == 0 { a } else { gcd(b, a % b) }
}

/// The least common multiple of two numbers from 1 on, and `None` where it is over the bound.
pub fn lcm_within(a: u64, b: u64, bound: u64) -> Option<u64>
    requires first { 1 ≤ a }
    requires second { 1 ≤ b }
    ensures least { IsLcm a b (lcm_of a b) }
    ensures value { IfSome result (λ l. l ≡ lcm_of a b) }
    ensures within { IsSome result ↔ (lcm_of a b ≤ bound) }
{
    let multiple = a as u128 * (b / gcd(a, b)) as u128;
    if multiple <= bound as u128 {
        Some(multiple as u64)
    } else {
        None
    }
}

/// The fraction of a sum over a denominator from 1 on, in lowest terms. Nothing is divided where it
/// is whole from the start.
pub fn ratio_of(sum: i128, denominator: u64) -> Ratio
    requires positive { 1 ≤ denominator }
    ensures value { result ≡ lowest_terms sum denominator }
    ensures lowest { IsLowest sum denominator result.p result.q }
{
    if denominator == 1 {
        Ratio { p: sum, q: 1 }
    } else if sum == 0 {
        Ratio { p: 0, q: 1 }
    } else {
        divided_out(sum, denominator)
    }
}

/// The fraction with the greatest common divisor taken out of both.
fn divided_out(sum: i128, denominator: u64) -> Ratio
    requires positive { 1 ≤ denominator }
    ensures value { result ≡ lowest_terms sum denominator }
    ensures lowest { IsLowest sum denominator result.p result.q }
{
    let common = common_divisor(sum, denominator);
    Ratio {
        p: sum / common as i128,
        q: denominator / common,
    }
}

/// The greatest common divisor of a sum and a denominator. The first step of the rule leads to
/// numbers of 64 bits.
fn common_divisor(sum: i128, denominator: u64) -> u64
    requires positive { 1 ≤ denominator }
    ensures value { result ≡ gcd_of (unsigned_abs sum) denominator }
{
    let rest = sum.unsigned_abs() % denominator as u128;
    gcd(denominator, rest as u64)
}
