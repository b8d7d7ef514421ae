// Weights in few bytes, and weights to be worked on.
ghost use Rattle.std.specs.Prelude.{◌≡◌, IfOk};
ghost use Rattle.layers.specs.Packing.{is_narrow, pack, pack_sums, opened_of};

use crate::weight::{LayerWeight, MarksWeight, Narrow, Opened, SumsWeight};
use polynomial_iface::Marks;
use sqlite_items::Boxed;
use std::alloc::{AllocError, Global};

/// The number has at most 64 bits.
fn has_few_bits(x: i128) -> bool
    ensures { result ≡ is_narrow x }
{
    -9223372036854775808 <= x && x <= 9223372036854775807
}

/// The sums in few bytes.
fn packed_sums(alloc: Global, sums: SumsWeight) -> Result<LayerWeight, AllocError>
    ensures { IfOk result (λ w. w ≡ pack_sums sums.scaled sums.outside sums.inside) }
{
    if has_few_bits(sums.outside) && has_few_bits(sums.inside) {
        let kept = Narrow {
            outside: sums.outside as i64,
            inside: sums.inside as i64,
        };
        if sums.scaled {
            Ok(LayerWeight::Scaled(kept))
        } else {
            Ok(LayerWeight::Plain(kept))
        }
    } else {
        Ok(LayerWeight::Wide(Boxed::new(alloc, sums)?))
    }
}

/// The weight in few bytes.
pub(crate) fn packed(alloc: Global, weight: Opened) -> Result<LayerWeight, AllocError>
    ensures { IfOk result (λ w. w ≡ pack weight) }
{
    match weight {
        Opened::Set(set) => Ok(LayerWeight::Set(set)),
        Opened::Places(places) => Ok(LayerWeight::Places(places)),
        Opened::Many(places) => Ok(LayerWeight::Many(Boxed::new(alloc, places)?)),
        Opened::Sums(sums) => packed_sums(alloc, sums),
    }
}

/// The same marks in memory of their own.
fn copied(alloc: Global, places: &MarksWeight) -> Result<MarksWeight, AllocError>
    ensures { IfOk result (λ copy. copy ≡ places.now) }
{
    let marks = Vec::from_slice(alloc, places.marks.as_slice())?;
    Ok(MarksWeight {
        shape: places.shape,
        marks: Marks::from_vec(marks),
    })
}

/// The weight to be worked on.
pub(crate) fn unpacked(alloc: Global, weight: &LayerWeight) -> Result<Opened, AllocError>
    ensures { IfOk result (λ w. w ≡ opened_of weight.now) }
{
    match weight {
        LayerWeight::Set(set) => Ok(Opened::Set(*set)),
        LayerWeight::Places(places) => Ok(Opened::Places(*places)),
        LayerWeight::Many(places) => Ok(Opened::Many(copied(alloc, places.get())?)),
        LayerWeight::Plain(kept) => Ok(Opened::Sums(SumsWeight {
            scaled: false,
            outside: kept.outside as i128,
            inside: kept.inside as i128,
        })),
        LayerWeight::Scaled(kept) => Ok(Opened::Sums(SumsWeight {
            scaled: true,
            outside: kept.outside as i128,
            inside: kept.inside as i128,
        })),
        LayerWeight::Wide(sums) => Ok(Opened::Sums(*sums.get())),
    }
}
