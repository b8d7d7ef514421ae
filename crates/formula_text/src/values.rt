//! Values of layers in parts.
ghost use Rattle.std.specs.Prelude.{◌≡◌, map, option_map, option_and_then, IfOk};
ghost use Rattle.formula_text.specs.Values.{trit_of as is_trit_of, trit_in as is_trit};
ghost use Rattle.formula_text.specs.Values.{trits_in as are_trits, before_end as before_last};
ghost use Rattle.formula_text.specs.Values.{triple_in as is_triple, tagged_in as is_tagged};
ghost use Rattle.formula_text.specs.Values.{set_of as is_set, set_texts, value_in as is_value};
ghost use Rattle.formula_text.specs.Values.{pieces_of, close_round, close_square};
ghost use Rattle.formula_text.specs.Numbers.{is_same, label_bound, number_below as number_in};
ghost use Rattle.modalities.specs.declared.three.Three.TheVariants.{Label, Trits};
ghost use Rattle.std.specs.List.{position_or_len};

use crate::numbers::{LABEL_BOUND, fraction_in, number_below};
use crate::pieces::pieces;
use crate::writing::set_text;
use modalities::{Three, TritList};
use std::alloc::{AllocError, Global};

/// The trit whose byte this is.
fn trit_of(byte: u8) -> Option<u8>
    ensures { result ≡ is_trit_of byte }
{
    if b'0' <= byte && byte <= b'2' {
        Some(byte - b'0')
    } else {
        None
    }
}

/// The trit whose byte the piece is.
fn trit_in(piece: &[u8]) -> Option<u8>
    ensures { result ≡ is_trit piece.now }
{
    match piece {
        [byte] => trit_of(*byte),
        _ => None,
    }
}

/// The trits whose bytes the pieces are, one each.
fn trits_in(alloc: Global, found: &[&[u8]]) -> Result<Option<TritList>, AllocError>
    ensures { IfOk result (λ trits. trits ≡ are_trits (map (λ piece. piece.now) found.now)) }
{
    let mut trits = Vec::new(alloc);
    for piece in found {
        let Some(trit) = trit_in(piece) else {
            return Ok(None);
        };
        trits.push(trit)?;
    }
    Ok(Some(TritList::from_vec(trits)))
}

/// The bytes before a last byte, if it is this one.
fn before_end(text: &[u8], byte: u8) -> Option<&[u8]>
    ensures { option_map (λ front. front.now) result ≡ before_last byte text.now }
{
    let (last, front) = text.split_last()?;
    if *last == byte { Some(front) } else { None }
}

/// The set whose text the part is.
fn set_in(part: &[u8]) -> Option<Three>
    ensures { result ≡ is_set (position_or_len (is_same part.now) set_texts) }
{
    for bits in 0..8 {
        if part == set_text(bits) {
            return Some(Three::Members(bits));
        }
    }
    None
}

/// A trit alone, or a summand and a trit in it.
fn tagged_in(found: &[&[u8]]) -> Option<Three>
    ensures { result ≡ is_tagged (map (λ piece. piece.now) found.now) }
{
    match found {
        [trit] => Some(Three::Trit(trit_in(trit)?)),
        [summand, trit] => {
            let i = number_below(summand, 256)?;
            Some(Three::Tagged(i as u32, trit_in(trit)?))
        }
        _ => None,
    }
}

/// A value of three fractions.
fn triple_in(alloc: Global, found: &[&[u8]]) -> Result<Option<Three>, AllocError>
    ensures { IfOk result (λ value. value ≡ is_triple (map (λ piece. piece.now) found.now)) }
{
    let [a, b, c] = found else {
        return Ok(None);
    };
    let Some(at_zero) = fraction_in(alloc, a)? else {
        return Ok(None);
    };
    let Some(at_one) = fraction_in(alloc, b)? else {
        return Ok(None);
    };
    let Some(at_two) = fraction_in(alloc, c)? else {
        return Ok(None);
    };
    Ok(Some(Three::of_sums(alloc, at_zero, at_one, at_two)?))
}

/// The value whose text the part is: its first byte tells the kind.
pub fn value_in(alloc: Global, part: &[u8]) -> Result<Option<Three>, AllocError>
    ensures { IfOk result (λ value. value ≡ is_value part.now) }
{
    match part {
        [] => Ok(None),
        [b'=', rest @ ..] => Ok(label_in(rest)),
        [b'(', rest @ ..] => trits_behind(alloc, rest),
        [b'[', rest @ ..] => triple_behind(alloc, rest),
        [b'{', ..] => Ok(set_in(part)),
        _ => Ok(tagged_in(pieces(alloc, part, b':')?.as_slice())),
    }
}

/// The label that the bytes behind `=` spell.
fn label_in(digits: &[u8]) -> Option<Three>
    ensures { result ≡ option_map Label (number_in label_bound digits.now) }
{
    let n = number_below(digits, LABEL_BOUND)?;
    Some(Three::Label(n as u64))
}

/// The trits that the bytes behind `(` spell.
fn trits_behind(alloc: Global, rest: &[u8]) -> Result<Option<Three>, AllocError>
    ensures { IfOk result (λ value. value ≡ option_and_then
        (λ text. option_map Trits (are_trits (pieces_of text)))
        (before_last close_round rest.now)) }
{
    let Some(text) = before_end(rest, b')') else {
        return Ok(None);
    };
    let found = pieces(alloc, text, b',')?;
    match trits_in(alloc, found.as_slice())? {
        None => Ok(None),
        Some(trits) => Ok(Some(Three::Trits(trits))),
    }
}

/// The three fractions that the bytes behind `[` spell.
fn triple_behind(alloc: Global, rest: &[u8]) -> Result<Option<Three>, AllocError>
    ensures { IfOk result (λ value. value ≡ option_and_then
        (λ text. is_triple (pieces_of text)) (before_last close_square rest.now)) }
{
    let Some(text) = before_end(rest, b']') else {
        return Ok(None);
    };
    let found = pieces(alloc, text, b',')?;
    triple_in(alloc, found.as_slice())
}
