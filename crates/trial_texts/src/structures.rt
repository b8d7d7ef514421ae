//! What is drawn for a state, put last in a text.
ghost use Rattle.std.specs.Prelude.{◌≡◌, ◌+◌, ◌*◌, ◌-◌, ◌<◌, ◌≤◌, ◌++◌, ◌∷◌, [], OnOk, codes, decimal, map};
ghost use Rattle.trial_texts.specs.Draws.{number, draw, pairs};
ghost use Rattle.trial_texts.specs.Structures.{structure_of, draws_of};
ghost use Rattle.trial_texts.specs.Text.{listed, move_text, chance_text, sum_text, structure_text};

use crate::draws::Draws;
use crate::kind::TrialKind;
use crate::pieces::{push_between, push_chance, push_end, push_move, push_number, push_sum};
use std::alloc::AllocError;

/// Draws for a state of a trial input with so many states, and puts its structure last.
pub(crate) fn push_structure(
    text: &mut Vec<u8>,
    draws: &mut Draws,
    kind: TrialKind,
    size: u32,
) -> Result<(), AllocError>
    requires { 0 < size }
    ensures text { OnOk result (text.new.items
        ≡ text.old.items ++ structure_text (structure_of kind size draws.old.number)) }
    ensures draws { OnOk result (draws.new.number
        ≡ number (draws_of kind draws.old.number) draws.old.number) }
{
    match kind {
        TrialKind::Lts => push_moves(text, draws, size),
        TrialKind::Chain => push_chances(text, draws, size),
        TrialKind::Sums => push_sums(text, draws, size),
        TrialKind::Dfa => push_ends(text, draws, size),
    }
}

/// The same of sets of labels and targets.
fn push_moves(text: &mut Vec<u8>, draws: &mut Draws, size: u32) -> Result<(), AllocError>
    requires { 0 < size }
    ensures text { OnOk result (text.new.items
        ≡ text.old.items ++ structure_text (structure_of TrialKind.Lts size draws.old.number)) }
    ensures draws { OnOk result (draws.new.number
        ≡ number (draws_of TrialKind.Lts draws.old.number) draws.old.number) }
{
    let count = draws.below(4);
    text.push(b'{')?;
    push_each_move(text, draws, count, size)?;
    text.push(b'}')?;
    Ok(())
}

/// Draws so many labels and targets, and puts them last.
fn push_each_move(
    text: &mut Vec<u8>,
    draws: &mut Draws,
    count: u32,
    size: u32,
) -> Result<(), AllocError>
    requires { 0 < size }
    ensures text { OnOk result (text.new.items
        ≡ text.old.items ++ listed (map move_text (pairs 3 size count draws.old.number))) }
    ensures draws { OnOk result (draws.new.number ≡ number (2 * count) draws.old.number) }
{
    for i in 0..count {
        let (label, target) = draws.pair(3, size);
        push_move(text, label, target)?;
        push_between(text, count - i - 1)?;
    }
    Ok(())
}

/// The same of a mark and a distribution on two targets.
fn push_chances(text: &mut Vec<u8>, draws: &mut Draws, size: u32) -> Result<(), AllocError>
    requires { 0 < size }
    ensures text { OnOk result (text.new.items
        ≡ text.old.items ++ structure_text (structure_of TrialKind.Chain size draws.old.number)) }
    ensures draws { OnOk result (draws.new.number
        ≡ number (draws_of TrialKind.Chain draws.old.number) draws.old.number) }
{
    push_mark(text, draws)?;
    let (first, second) = draws.pair(size, size);
    let eighths = 1 + draws.below(7);
    push_both(text, first, second, eighths)?;
    text.extend_from_slice(b"})".as_slice())?;
    Ok(())
}

/// Puts two targets last, of which the first has k eighths and the second the others.
fn push_both(text: &mut Vec<u8>, first: u32, second: u32, k: u32) -> Result<(), AllocError>
    requires { k ≤ 8 }
    ensures { OnOk result (text.new.items
        ≡ text.old.items ++ listed (chance_text first k ∷ chance_text second (8 - k) ∷ [])) }
{
    push_chance(text, first, k)?;
    text.extend_from_slice(b", ".as_slice())?;
    push_chance(text, second, 8 - k)
}

/// The same of a mark and targets with weights.
fn push_sums(text: &mut Vec<u8>, draws: &mut Draws, size: u32) -> Result<(), AllocError>
    requires { 0 < size }
    ensures text { OnOk result (text.new.items
        ≡ text.old.items ++ structure_text (structure_of TrialKind.Sums size draws.old.number)) }
    ensures draws { OnOk result (draws.new.number
        ≡ number (draws_of TrialKind.Sums draws.old.number) draws.old.number) }
{
    push_mark(text, draws)?;
    let count = draws.below(4);
    push_each_sum(text, draws, count, size)?;
    text.extend_from_slice(b"})".as_slice())
}

/// Draws so many targets and weights, and puts them last.
fn push_each_sum(
    text: &mut Vec<u8>,
    draws: &mut Draws,
    count: u32,
    size: u32,
) -> Result<(), AllocError>
    requires { 0 < size }
    ensures text { OnOk result (text.new.items
        ≡ text.old.items ++ listed (map sum_text (pairs size 7 count draws.old.number))) }
    ensures draws { OnOk result (draws.new.number ≡ number (2 * count) draws.old.number) }
{
    for i in 0..count {
        let (target, weight) = draws.pair(size, 7);
        push_sum(text, target, weight)?;
        push_between(text, count - i - 1)?;
    }
    Ok(())
}

/// The same of a mark and a target by each of two letters.
fn push_ends(text: &mut Vec<u8>, draws: &mut Draws, size: u32) -> Result<(), AllocError>
    requires { 0 < size }
    ensures text { OnOk result (text.new.items
        ≡ text.old.items ++ structure_text (structure_of TrialKind.Dfa size draws.old.number)) }
    ensures draws { OnOk result (draws.new.number
        ≡ number (draws_of TrialKind.Dfa draws.old.number) draws.old.number) }
{
    push_mark(text, draws)?;
    let (first, second) = draws.pair(size, size);
    push_end(text, 0, first)?;
    text.extend_from_slice(b", ".as_slice())?;
    push_end(text, 1, second)?;
    text.extend_from_slice(b"})".as_slice())
}

/// Draws a mark, and puts it last, with what stands around it.
fn push_mark(text: &mut Vec<u8>, draws: &mut Draws) -> Result<(), AllocError>
    ensures text { OnOk result (text.new.items
        ≡ text.old.items ++ (codes "(" ++ decimal (draw 2 1 draws.old.number) ++ codes ", {")) }
    ensures draws { OnOk result (draws.new.number ≡ number 1 draws.old.number) }
{
    let mark = draws.below(2);
    text.push(b'(')?;
    push_number(text, mark)?;
    text.extend_from_slice(b", {".as_slice())
}
