//! Bits in words of 64.

ghost use Rattle.std.specs.Prelude.{◌≡◌, ◌+◌, ◌/◌, ◌%◌, ◌*◌, ◌<◌, ◌≤◌, ◌≢◌, ℕ, true, length, IfOk, MatchResult};
ghost use Rattle.evaluation.specs.Packed.{has_bit, ArePacked, HasRoomFor, IsPushed};

use std::alloc::AllocError;

/// Sets bit n.
fn set_bit(words: &mut [u64], n: usize)
    requires inside { n / 64 < length words.old }
    ensures set { has_bit words.new n ≡ true }
    ensures others { (x : ℕ) → x ≢ n → has_bit words.new x ≡ has_bit words.old x }
{
    words[n / 64] |= 1 << (n % 64);
}

/// Makes room for one more bit behind n bits. Where memory is wanting nothing changes.
fn make_room(words: &mut Vec<u64>, n: usize) -> Result<(), AllocError>
    requires packed { ArePacked words.old.items n }
    ensures room { MatchResult result
        (λ _. HasRoomFor n words.old.items words.new.items)
        (λ e. words.new.items ≡ words.old.items) }
{
    if n % 64 == 0 {
        words.push(0)?;
        return Ok(());
    }
    Ok(())
}

/// Puts a bit behind n bits. Where memory is wanting nothing changes.
pub(crate) fn push_bit(words: &mut Vec<u64>, n: usize, bit: bool) -> Result<(), AllocError>
    requires packed { ArePacked words.old.items n }
    ensures pushed { MatchResult result
        (λ _. IsPushed n bit words.old.items words.new.items)
        (λ e. words.new.items ≡ words.old.items) }
{
    make_room(words, n)?;
    if !bit {
        return Ok(());
    }
    set_bit(words.as_mut_slice(), n);
    Ok(())
}

/// Bit x.
pub(crate) fn bit_of(words: &[u64], x: usize) -> bool
    requires inside { x / 64 < length words.now }
    ensures { result ≡ has_bit words.now x }
{
    (words[x / 64] >> (x % 64)) & 1 == 1
}
