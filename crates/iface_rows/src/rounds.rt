// One structure is taken through its first two rounds.
ghost use Rattle.std.specs.Prelude.{◌≡◌, ◌+◌, ◌*◌, ◌<◌, ◌≤◌, ◌^◌, ℕ, true, List, map, length, IfOk, OnOk};
ghost use Rattle.iface.specs.Structures.{IsUpdated};
ghost use Rattle.iface.specs.Trits.{each};
ghost use Rattle.iface_rows.specs.Rounds.{IsTwice};

use iface::{Iface, Update};
use modalities::Three;
use outside::Steps;
use std::alloc::{AllocError, Global};
use std::sync::ledger::{Blank, Ledger};

/// The weight of a structure towards all states and its value there, and what two splitters in a
/// row make of them.
#[derive(Drop)]
pub struct Rounds<W> {
    pub whole: W,
    pub three: Three,
    pub first: Update<W>,
    pub second: Update<W>,
    pub rest: W,
}

/// Takes a splitter out of the block of all states, and then another one out of what is left, at
/// one structure. The weight towards all states is asked for a second time, since a round changes
/// it.
pub fn two_rounds<I: Iface, L: Ledger>(
    alloc: Global,
    iface: &I,
    shape: &I::Shape,
    labels: &[I::Label],
    first: &[I::Label],
    second: &[I::Label],
    blank: Blank,
) -> Result<Rounds<I::Weight>, AllocError>
    requires name { blank.name ≡ L.name }
    requires parts { blank.parts ≡ L.parts }
    requires some { 0 < L.parts }
    requires few { length labels.now < 2 ^ 26 }
    requires fewer { length first.now + length second.now < 2 ^ 26 }
    requires fit { I.fits iface.now shape.now labels.now }
    requires twice { (ts : List ℕ) × (us : List ℕ) ×
        IsTwice labels.now first.now second.now ts us }
    ensures whole { IfOk result (λ r.
        r.whole ≡ I.toward iface.now shape.now labels.now (map (λ _. true) labels.now)) }
    ensures three { IfOk result (λ r.
        r.three ≡ I.value iface.now shape.now labels.now (each 2 labels.now)) }
    ensures first { IfOk result (λ r. (ts us : List ℕ) →
        IsTwice labels.now first.now second.now ts us →
        r.first.three ≡ I.value iface.now shape.now labels.now ts) }
    ensures second { IfOk result (λ r. (ts us : List ℕ) →
        IsTwice labels.now first.now second.now ts us →
        IsUpdated (I.value iface.now) (I.toward iface.now) r.rest r.second.part r.second.three
        r.second.void shape.now labels.now us) }
{
    let mut steps = Steps::<L>::fresh(blank);
    let rounds = counted_rounds(alloc, iface, shape, labels, first, second, &mut steps)?;
    Ok(rounds)
}

/// The same with a counter. Each label counts once for each call that is given it.
pub fn counted_rounds<I: Iface, L: Ledger>(
    alloc: Global,
    iface: &I,
    shape: &I::Shape,
    labels: &[I::Label],
    first: &[I::Label],
    second: &[I::Label],
    steps: &mut Steps<L>,
) -> Result<Rounds<I::Weight>, AllocError>
    requires few { length labels.now < 2 ^ 26 }
    requires fewer { length first.now + length second.now < 2 ^ 26 }
    requires fit { I.fits iface.now shape.now labels.now }
    requires twice { (ts : List ℕ) × (us : List ℕ) ×
        IsTwice labels.now first.now second.now ts us }
    requires steps_fit { steps.old ≤ 2 ^ 61 }
    ensures whole { IfOk result (λ r.
        r.whole ≡ I.toward iface.now shape.now labels.now (map (λ _. true) labels.now)) }
    ensures three { IfOk result (λ r.
        r.three ≡ I.value iface.now shape.now labels.now (each 2 labels.now)) }
    ensures first { IfOk result (λ r. (ts us : List ℕ) →
        IsTwice labels.now first.now second.now ts us →
        r.first.three ≡ I.value iface.now shape.now labels.now ts) }
    ensures second { IfOk result (λ r. (ts us : List ℕ) →
        IsTwice labels.now first.now second.now ts us →
        IsUpdated (I.value iface.now) (I.toward iface.now) r.rest r.second.part r.second.three
        r.second.void shape.now labels.now us) }
    ensures counted { OnOk result (steps.new
        ≡ steps.old + 2 * length labels.now + length first.now + length second.now) }
{
    let (whole, _) = iface.init(alloc, shape, labels, steps)?;
    let (mut rest, three) = iface.init(alloc, shape, labels, steps)?;
    let one = iface.update(alloc, first, &mut rest, steps)?;
    let two = iface.update(alloc, second, &mut rest, steps)?;
    Ok(Rounds {
        whole,
        three,
        first: one,
        second: two,
        rest,
    })
}
