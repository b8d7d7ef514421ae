//! Decimal digits, and the numbers that they spell.

ghost use Rattle.std.specs.Prelude.{◌≡◌, ◌≤◌, ◌^◌, ◌+◌, ◌++◌, ◌==◌, length, IsTrue};
ghost use Rattle.std.specs.List.{list_all, prefix_len, suffix_len};
ghost use Rattle.std.specs.Char.{is_ascii_digit};
ghost use Rattle.weights.specs.Numerals.{digit_zero, is_digits, number_after, number_of, without_end_zeros};
ghost use Rattle.weights.specs.Bounded.{bounded};

/// The bound of a numeral's numerator and denominator.
pub const BOUND: u64 = 1 << 40;

/// How many digits stand in front of a text.
pub fn digits_in_front(text: &[u8]) -> usize
    ensures value { result ≡ prefix_len is_ascii_digit text.now }
{
    text.iter().take_while(|byte| byte.is_ascii_digit()).count()
}

/// Whether a text is digits, and one at least.
pub fn is_digits(text: &[u8]) -> bool
    ensures value { result ≡ is_digits text.now }
{
    !text.is_empty() && all_digits(text)
}

fn all_digits(text: &[u8]) -> bool
    ensures value { result ≡ list_all is_ascii_digit text.now }
{
    text.iter().all(|byte| byte.is_ascii_digit())
}

/// The digits of a fraction without the zeros at their end.
pub fn without_end_zeros(digits: &[u8]) -> &[u8]
    ensures value { result.now ≡ without_end_zeros digits.now }
{
    &digits[..digits.len() - zeros_at_end(digits)]
}

fn zeros_at_end(digits: &[u8]) -> usize
    ensures value { result ≡ suffix_len (λ d. d == digit_zero) digits.now }
{
    digits
        .iter()
        .rev()
        .take_while(|digit| **digit == b'0')
        .count()
}

/// The number that digits spell behind one, and `None` where it is over the bound.
pub fn number_within(start: u64, digits: &[u8]) -> Option<u64>
    requires small { start ≤ 2 ^ 40 }
    requires digits { IsTrue (list_all is_ascii_digit digits.now) }
    ensures value { result ≡ bounded (number_after start digits.now) }
{
    let mut number = start;
    for digit in digits {
        number = number * 10 + (*digit - b'0') as u64;
        if number > BOUND {
            return None;
        }
    }
    Some(number)
}

/// The number that the digits of two texts spell, one behind the other, and `None` where it is over
/// the bound.
pub fn joined_within(whole: &[u8], fraction: &[u8]) -> Option<u64>
    requires whole { IsTrue (list_all is_ascii_digit whole.now) }
    requires fraction { IsTrue (list_all is_ascii_digit fraction.now) }
    ensures value { result ≡ bounded (number_of (whole.now ++ fraction.now)) }
{
    match number_within(0, whole) {
        Some(front) => number_within(front, fraction),
        None => None,
    }
}

/// Ten to the number of places, and `None` where it is over the bound.
pub fn power_within(places: usize) -> Option<u64>
    ensures value { result ≡ bounded (10 ^ places) }
{
    if places <= 12 {
        Some(10u64.pow(places as u32))
    } else {
        None
    }
}
