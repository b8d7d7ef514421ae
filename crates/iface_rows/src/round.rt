// One structure is taken through its first round.
ghost use Rattle.std.specs.Prelude.{◌≡◌, ◌<◌, ◌^◌, ℕ, true, List, map, length, IfOk};
ghost use Rattle.iface.specs.Structures.{IsUpdated};
ghost use Rattle.iface.specs.Trits.{AreTrits, each, picked, in_coarse};
ghost use Rattle.iface_rows.specs.Rounds.{IsWhole};

use iface::{Iface, Update};
use modalities::Three;
use outside::Steps;
use std::alloc::{AllocError, Global};
use std::sync::ledger::{Blank, Ledger};

/// The weight of a structure towards all states and its value there, and what the first splitter
/// makes of them.
#[derive(Drop)]
pub struct Round<W> {
    pub whole: W,
    pub three: Three,
    pub rest: W,
    pub update: Update<W>,
}

/// Takes a splitter out of the block of all states, at one structure. The weight towards all states
/// is asked for a second time, since the round changes it.
pub fn first_round<I: Iface, L: Ledger>(
    alloc: Global,
    iface: &I,
    shape: &I::Shape,
    labels: &[I::Label],
    moved: &[I::Label],
    blank: Blank,
) -> Result<Round<I::Weight>, AllocError>
    requires name { blank.name ≡ L.name }
    requires parts { blank.parts ≡ L.parts }
    requires some { 0 < L.parts }
    requires few { length labels.now < 2 ^ 26 }
    requires fewer { length moved.now < 2 ^ 26 }
    requires fit { I.fits iface.now shape.now labels.now }
    requires whole { (trits : List ℕ) × IsWhole labels.now moved.now trits }
    ensures whole { IfOk result (λ r.
        r.whole ≡ I.toward iface.now shape.now labels.now (map (λ _. true) labels.now)) }
    ensures three { IfOk result (λ r.
        r.three ≡ I.value iface.now shape.now labels.now (each 2 labels.now)) }
    ensures updated { IfOk result (λ r.
        (trits : List ℕ) → IsWhole labels.now moved.now trits →
        IsUpdated (I.value iface.now) (I.toward iface.now) r.rest r.update.part r.update.three
        r.update.void shape.now labels.now trits) }
{
    let mut steps = Steps::<L>::fresh(blank);
    let (whole, _) = iface.init(alloc, shape, labels, &mut steps)?;
    let (mut rest, three) = iface.init(alloc, shape, labels, &mut steps)?;
    let update = iface.update(alloc, moved, &mut rest, &mut steps)?;
    Ok(Round {
        whole,
        three,
        rest,
        update,
    })
}
