//! The text of a fraction.

ghost use Rattle.std.specs.Prelude.{◌≡◌, ◌≤◌, ◌+◌, ◌++◌, length, take};
ghost use Rattle.weights.specs.FractionText.{text_of_fraction, SpellsFraction, IsReadable, ReadsBack};

use crate::ratio::Ratio;
use itoa::Buffer;

/// Writes a fraction at the front of `out`, and answers how many bytes it takes: an optional `-`,
/// the numerator, and where the denominator is not 1, `/` and the denominator. The bytes behind it
/// stay open.
pub fn ratio_text(r: Ratio, out: &mut [u8; 64]) -> usize
    ensures length { result ≡ length (text_of_fraction r.p r.q) }
    ensures text { take result out.new ≡ text_of_fraction r.p r.q }
    ensures fits { result ≤ 64 }
    ensures reads_back { IsReadable r.p r.q → ReadsBack r.p r.q }
    ensures spells { 1 ≤ r.q → SpellsFraction (text_of_fraction r.p r.q) r.p r.q }
{
    let mut numerator = Buffer::new();
    let end = put(out, 0, numerator.format(r.p).as_bytes());
    if r.q == 1 {
        return end;
    }
    out[end] = b'/';
    let mut denominator = Buffer::new();
    put(out, end + 1, denominator.format(r.q).as_bytes())
}

/// Writes bytes at a place, and answers the place behind them.
fn put(out: &mut [u8], at: usize, bytes: &[u8]) -> usize
    requires room { at + length bytes.now ≤ length out.old }
    ensures end { result ≡ at + length bytes.now }
    ensures written { take result out.new ≡ take at out.old ++ bytes.now }
{
    let end = at + bytes.len();
    out[at..end].copy_from_slice(bytes);
    end
}
