// Places as the bits of a number.
ghost use Rattle.std.specs.Prelude.{◌≡◌, ◌<◌, ◌==◌, ◌^◌, IfOk, cond, nat_le};
ghost use Rattle.layers.specs.Bits.{powers, trits_of};
ghost use Rattle.polynomial_iface.specs.Polys.{arity, value_of_form};

use modalities::{Three, TritList};
use polynomial_iface::Form;
use std::alloc::{AllocError, Global};

/// A number of 64 bits has one for each place of the form.
pub(crate) fn has_few_places(form: Form) -> bool
    ensures { result ≡ nat_le (arity form) 64 }
{
    form.places() <= 64
}

/// The number with these bits.
pub(crate) fn bits_at(places: &[u32]) -> u64
    requires few { powers places.now < 2 ^ 64 }
    ensures { result ≡ powers places.now }
{
    let mut sum = 0;
    for i in 0..places.len() {
        sum += 1u64 << places[i];
    }
    sum
}

/// 2 where the place is marked now, 1 where it was before, and else 0.
fn trit_at(here: bool, mark: bool) -> u8
    ensures { result ≡ cond here 2 (cond mark 1 0) }
{
    if here {
        2
    } else if mark {
        1
    } else {
        0
    }
}

/// 2 where the second has a bit, else 1 where the first has one.
fn trits(alloc: Global, count: u32, ones: u64, twos: u64) -> Result<Vec<u8>, AllocError>
    ensures { IfOk result (λ v. v.items ≡ trits_of count ones twos) }
{
    let mut found = Vec::with_capacity(alloc, count as usize)?;
    let mut low = ones;
    let mut high = twos;
    for i in 0..count {
        found.push(trit_at(high % 2 == 1, low % 2 == 1))?;
        low /= 2;
        high /= 2;
    }
    Ok(found)
}

/// The value of a form: 2 where the second number has a bit, else 1 where the first has one.
pub(crate) fn value_by_bits(
    alloc: Global,
    form: Form,
    ones: u64,
    twos: u64,
) -> Result<Three, AllocError>
    ensures { IfOk result (λ x. x ≡ value_of_form form (trits_of (arity form) ones twos)) }
{
    let trit = trit_at(twos % 2 == 1, ones % 2 == 1);
    match form {
        Form::Constant(label) => Ok(Three::Label(label)),
        Form::Identity => Ok(Three::Trit(trit)),
        Form::Tagged(index) => Ok(Three::Tagged(index, trit)),
        Form::Places(count) => {
            let found = trits(alloc, count, ones, twos)?;
            Ok(Three::Trits(TritList::from_vec(found)))
        }
    }
}
