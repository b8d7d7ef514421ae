//! The whole text.
ghost use Rattle.std.specs.Prelude.{◌≡◌, ◌<◌, ◌++◌, IfOk, OnOk, codes};
ghost use Rattle.trial_texts.specs.Draws.{number};
ghost use Rattle.trial_texts.specs.Structures.{structure_of, draws_of};
ghost use Rattle.trial_texts.specs.Text.{IsSized, functor_text, line_text, text_of_trial};

use crate::draws::Draws;
use crate::kind::TrialKind;
use crate::pieces::push_name;
use crate::structures::push_structure;
use std::alloc::{AllocError, Global};

/// The trial input of this kind with so many states, drawn by the seed. The error is want of
/// memory.
pub fn trial_text(
    alloc: Global,
    kind: TrialKind,
    seed: u64,
    size: u32,
) -> Result<Vec<u8>, AllocError>
    requires sized { IsSized size }
    ensures text { IfOk result (λ text. text.items ≡ text_of_trial kind seed size) }
{
    let mut text = Vec::new(alloc);
    let mut draws = Draws { number: seed };
    push_functor(&mut text, kind)?;
    for state in 0..size {
        push_line(&mut text, &mut draws, kind, state, size)?;
    }
    Ok(text)
}

/// Puts the functor's line last.
fn push_functor(text: &mut Vec<u8>, kind: TrialKind) -> Result<(), AllocError>
    ensures { OnOk result (text.new.items ≡ text.old.items ++ (functor_text kind ++ codes "\n")) }
{
    match kind {
        TrialKind::Lts => text.extend_from_slice(b"P({a,b,c} x X)\n".as_slice()),
        TrialKind::Chain => text.extend_from_slice(b"2 x D X\n".as_slice()),
        TrialKind::Sums => text.extend_from_slice(b"2 x Z^(X)\n".as_slice()),
        TrialKind::Dfa => text.extend_from_slice(b"2 x X^{a,b}\n".as_slice()),
    }
}

/// Draws for a state, and puts its line last.
fn push_line(
    text: &mut Vec<u8>,
    draws: &mut Draws,
    kind: TrialKind,
    state: u32,
    size: u32,
) -> Result<(), AllocError>
    requires { 0 < size }
    ensures line { OnOk result (text.new.items
        ≡ text.old.items ++ line_text state (structure_of kind size draws.old.number)) }
    ensures draws { OnOk result (draws.new.number
        ≡ number (draws_of kind draws.old.number) draws.old.number) }
{
    push_name(text, state)?;
    text.extend_from_slice(b": ".as_slice())?;
    push_structure(text, draws, kind, size)?;
    text.push(b'\n')?;
    Ok(())
}
