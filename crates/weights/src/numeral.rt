//! Numerals: words that spell a fraction, as `12`, `-007/014` and `0.500`.
//!
//! Steps: each byte of a word is looked at a few times, whatever its length.

ghost use Rattle.std.specs.Prelude.{◌≡◌, ◌<◌, ◌≤◌, ◌^◌, ◌↔◌, Bool, length, IfSome, IfOk, IsOk};
ghost use Rattle.std.specs.Bool.{OnTrue};
ghost use Rattle.weights.specs.Numerals.{has_sign, reading_of, text_reading, form_reading, Form, Whole, Over, Decimal, signed, reduced, Spells, IsNumeral, IsWithinBounds, IsOverBound, SpellsOnce, IsValueOf, DenotesOnce};
ghost use Rattle.weights.specs.declared.fault.NumeralFault.TheVariants.{NotANumber, OverBound};
ghost use Rattle.weights.specs.Bounded.{fraction_reading};

use crate::digits::{
    digits_in_front, is_digits, joined_within, number_within, power_within, without_end_zeros,
};
use crate::fault::NumeralFault;
use crate::ratio::gcd;

/// A fraction in lowest terms. `q` is at least 1, and the absolute value of `p` and `q` are at
/// most 2^40.
#[derive(Clone, Copy, Debug, PartialEq, Eq)]
pub struct Numeral {
    pub p: i64,
    pub q: u64,
}

/// Reads a word as a numeral: `digits`, `digits/digits` or `digits.digits`, with an optional `-` in
/// front. A denominator of zeros makes it none. The zeros at the end of a fraction are dropped. At
/// most 12 of its digits may stay, and numerator and denominator may be at most 2^40 as they are
/// spelled, before a common factor is taken out.
///
/// `NotANumber`: the word is no numeral. `OverBound`: it is one over a bound, and `negative` tells
/// whether its value is below zero, so that it is false of `-0/9999999999999`.
pub fn read_numeral(word: &[u8]) -> Result<Numeral, NumeralFault>
    ensures exact { result ≡ reading_of word.now }
    ensures value { IfOk result (λ n. IsValueOf word.now n.p n.q) }
    ensures within { IsOk result ↔ IsWithinBounds word.now }
    ensures not_a_number { (result ≡ Err NotANumber) ↔ (¬ IsNumeral word.now) }
    ensures over_bound { (below_zero : Bool) →
        (result ≡ Err (OverBound below_zero)) ↔ IsOverBound word.now below_zero }
    ensures one_spelling { SpellsOnce word.now }
    ensures one_value { DenotesOnce word.now }
{
    read_word(word)
}

#[tactic(auto, unfolding(crate::specs::Numerals::reading_of))]
fn read_word(word: &[u8]) -> Result<Numeral, NumeralFault>
    ensures value { result ≡ reading_of word.now }
{
    if has_sign(word) {
        read_text(true, &word[1..])
    } else {
        read_text(false, word)
    }
}

fn has_sign(word: &[u8]) -> bool
    ensures value { result ≡ has_sign word.now }
    ensures not_empty { OnTrue result (0 < length word.now) }
{
    !word.is_empty() && word[0] == b'-'
}

/// What is read of a text with no sign in front.
fn read_text(negative: bool, text: &[u8]) -> Result<Numeral, NumeralFault>
    ensures value { result ≡ text_reading negative text.now }
{
    let (front, rest) = text.split_at(digits_in_front(text));
    match rest {
        [] => read_whole(negative, front),
        [b'/', denominator @ ..] => read_over(negative, front, denominator),
        [b'.', fraction @ ..] => read_decimal(negative, front, fraction),
        _ => Err(NumeralFault::NotANumber),
    }
}

fn read_whole(negative: bool, digits: &[u8]) -> Result<Numeral, NumeralFault>
    ensures value { result ≡ form_reading negative (Whole digits.now) }
{
    if !is_digits(digits) {
        return Err(NumeralFault::NotANumber);
    }
    fraction(negative, number_within(0, digits), Some(1))
}

fn read_over(negative: bool, numerator: &[u8], denominator: &[u8]) -> Result<Numeral, NumeralFault>
    ensures value { result ≡ form_reading negative (Over numerator.now denominator.now) }
{
    if !is_digits(numerator) {
        return Err(NumeralFault::NotANumber);
    }
    if !is_digits(denominator) {
        return Err(NumeralFault::NotANumber);
    }
    match number_within(0, denominator) {
        Some(0) => Err(NumeralFault::NotANumber),
        below => fraction(negative, number_within(0, numerator), below),
    }
}

fn read_decimal(
    negative: bool,
    whole: &[u8],
    fraction_digits: &[u8],
) -> Result<Numeral, NumeralFault>
    ensures value { result ≡ form_reading negative (Decimal whole.now fraction_digits.now) }
{
    if !is_digits(whole) {
        return Err(NumeralFault::NotANumber);
    }
    if !is_digits(fraction_digits) {
        return Err(NumeralFault::NotANumber);
    }
    let kept = without_end_zeros(fraction_digits);
    fraction(
        negative,
        joined_within(whole, kept),
        power_within(kept.len()),
    )
}

/// What is read of a numerator and a denominator, each `None` where it is over the bound.
fn fraction(
    negative: bool,
    numerator: Option<u64>,
    denominator: Option<u64>,
) -> Result<Numeral, NumeralFault>
    requires above { IfSome numerator (λ n. n ≤ 2 ^ 40) }
    requires below { IfSome denominator (λ d. 1 ≤ d) }
    ensures value { result ≡ fraction_reading negative numerator denominator }
{
    match (numerator, denominator) {
        (Some(p), Some(q)) => Ok(reduced(negative, p, q)),
        (Some(p), None) => Err(NumeralFault::OverBound {
            negative: negative && p > 0,
        }),
        (None, _) => Err(NumeralFault::OverBound { negative }),
    }
}

/// The fraction of a numerator with its sign over a denominator, in lowest terms.
fn reduced(negative: bool, numerator: u64, denominator: u64) -> Numeral
    requires above { numerator ≤ 2 ^ 40 }
    requires below { 1 ≤ denominator }
    ensures value { result ≡ reduced (signed negative numerator) denominator }
{
    let common = gcd(numerator, denominator);
    Numeral {
        p: with_sign(negative, numerator / common),
        q: denominator / common,
    }
}

fn with_sign(negative: bool, size: u64) -> i64
    requires small { size ≤ 2 ^ 40 }
    ensures value { result ≡ signed negative size }
{
    if negative {
        -(size as i64)
    } else {
        size as i64
    }
}
