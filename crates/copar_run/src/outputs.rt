//! The texts that requests print for a coalgebra, from the refinement of its sorted states.
ghost use Rattle.std.specs.Prelude.{◌≡◌, ◌+◌, ◌≤◌, ◌<◌, ◌^◌, ◌++◌, ℕ, List, length, IfOk};
ghost use Rattle.std.specs.List.{All};
ghost use Rattle.typing.specs.Contents.{content_of};
ghost use Rattle.typing.specs.Stable.{IsStable};
ghost use Rattle.quotient_writer.specs.Blocks.{first_states};
ghost use Rattle.desorting.specs.Desorted.{IsDesorted};
ghost use Rattle.classes.specs.Refined.{IsRefined};
ghost use Rattle.copar_run.specs.Blocks.{AreBlocks, IsBlockList};
ghost use Rattle.copar_run.specs.Minimal.{AreClasses, IsMinimal};
ghost use Rattle.copar_run.specs.Explained.{pairs_of as the_pairs_of, IsExplained};
ghost use Rattle.copar_run.specs.Certified.{IsCertified};
ghost use Rattle.copar_run.specs.Named.{AreNumbers};
ghost use Rattle.copar_run.specs.Summarised.{IsSummary};
ghost use Rattle.copar_run.specs.Outputs.{IsCounted, IsFound, WithStats, stats_part};

use answer_writer::{
    block_lines_can_be_said, certificate_text, explanation_text, pair_lines_can_be_said,
    stats_line, trial_summary,
};
use classes::{Refinement, firsts_of, refinement_of};
use outside::Steps;
use quotient_writer::{
    blocks_text, class_numbers, first_equivalents_are_numbered,
    minimal_systems_are_their_own_quotients, quotient, quotient_text, quotients_are_minimal,
};
use rescaling::{rescaling_keeps_form, same_fractions_same_equivalence};
use state_certificates::{certify_classes, explain_pairs, state_formulas};
use std::alloc::{AllocError, Global};
use std::sync::ledger::Ledger;
use structure_writer::{texts_are_of_fractions, texts_are_read_back, texts_spell};
use trial_texts::TrialKind;
use typing::Coalgebra;

/// The list of the blocks of equivalent states, and the line of statistics where it is wanted. The
/// error is want of memory, here and below.
pub(crate) fn blocks_output<L: Ledger>(
    alloc: Global,
    c: &Coalgebra,
    stats: bool,
    steps: &mut Steps<L>,
) -> Result<Vec<u8>, AllocError>
    requires steps_fit { steps.old ≤ 2 ^ 60 }
    ensures prints { IfOk result (λ output. (rise : ℕ) × (steps.new ≡ steps.old + rise)
        × WithStats stats (content_of c.now) rise (IsBlockList (content_of c.now)) output.items) }
    ensures grows { steps.old ≤ steps.new }
{
    let found = refinement_of(alloc, c, steps)?;
    let text = block_list(alloc, c, &found)?;
    with_stats(alloc, text, stats, c, &found)
}

/// The text of the quotient by equivalence, and the line of statistics where it is wanted.
pub(crate) fn minimal_output<L: Ledger>(
    alloc: Global,
    c: &Coalgebra,
    stats: bool,
    steps: &mut Steps<L>,
) -> Result<Vec<u8>, AllocError>
    requires steps_fit { steps.old ≤ 2 ^ 60 }
    ensures prints { IfOk result (λ output. (rise : ℕ) × (steps.new ≡ steps.old + rise)
        × WithStats stats (content_of c.now) rise (IsMinimal (content_of c.now)) output.items) }
    ensures grows { steps.old ≤ steps.new }
{
    let found = refinement_of(alloc, c, steps)?;
    let text = minimised(alloc, c, &found)?;
    with_stats(alloc, text, stats, c, &found)
}

/// The explanation of the pairs of states with these numbers, which are those of the words, and the
/// line of statistics where it is wanted.
pub(crate) fn explained_output<L: Ledger>(
    alloc: Global,
    c: &Coalgebra,
    numbers: &[u32],
    stats: bool,
    steps: &mut Steps<L>,
) -> Result<Vec<u8>, AllocError>
    requires steps_fit { steps.old ≤ 2 ^ 60 }
    requires named { All (λ i. i < length c.now.names) numbers.now }
    ensures prints { IfOk result (λ output. (rise : ℕ) × (steps.new ≡ steps.old + rise)
        × ((words : List (List ℕ)) → AreNumbers c.now.names words numbers.now →
        WithStats stats (content_of c.now) rise (IsExplained (content_of c.now) words)
        output.items)) }
    ensures grows { steps.old ≤ steps.new }
{
    let found = refinement_of(alloc, c, steps)?;
    let text = explained(alloc, c, numbers, &found)?;
    with_stats(alloc, text, stats, c, &found)
}

/// The certificate of the blocks, and the line of statistics where it is wanted.
pub(crate) fn certified_output<L: Ledger>(
    alloc: Global,
    c: &Coalgebra,
    stats: bool,
    steps: &mut Steps<L>,
) -> Result<Vec<u8>, AllocError>
    requires steps_fit { steps.old ≤ 2 ^ 60 }
    ensures prints { IfOk result (λ output. (rise : ℕ) × (steps.new ≡ steps.old + rise)
        × WithStats stats (content_of c.now) rise (IsCertified (content_of c.now)) output.items) }
    ensures grows { steps.old ≤ steps.new }
{
    let found = refinement_of(alloc, c, steps)?;
    let text = certified(alloc, c, &found)?;
    with_stats(alloc, text, stats, c, &found)
}

/// The summary of a drawn coalgebra.
pub(crate) fn summary_output<L: Ledger>(
    alloc: Global,
    kind: TrialKind,
    c: &Coalgebra,
    steps: &mut Steps<L>,
) -> Result<Vec<u8>, AllocError>
    requires steps_fit { steps.old ≤ 2 ^ 60 }
    ensures prints { IfOk result (λ output. (rise : ℕ) × (steps.new ≡ steps.old + rise)
        × IsCounted (content_of c.now) rise × IsSummary kind (content_of c.now) rise output.items) }
    ensures grows { steps.old ≤ steps.new }
{
    let found = refinement_of(alloc, c, steps)?;
    summarised(alloc, kind, c, &found)
}

/// The text, and behind it the line of statistics where it is wanted.
fn with_stats(
    alloc: Global,
    mut text: Vec<u8>,
    stats: bool,
    c: &Coalgebra,
    found: &Refinement,
) -> Result<Vec<u8>, AllocError>
    requires found { IsFound (content_of c.now) found.now }
    ensures { IfOk result (λ output. output.items ≡ text.items
        ++ stats_part stats (content_of c.now) found.now.refined.labels) }
{
    if stats {
        let store = found.system.store();
        let line = stats_line(
            alloc,
            found.system.sorted(),
            store.len(),
            found.refined.labels(),
        )?;
        text.extend_from_slice(line.as_slice())?;
    }
    Ok(text)
}

/// For each state the number of its class of equivalent states.
fn classes(alloc: Global, c: &Coalgebra, found: &Refinement) -> Result<Vec<u32>, AllocError>
    requires found { IsFound (content_of c.now) found.now }
    ensures classes { IfOk result (λ labels. AreClasses (content_of c.now) labels.items) }
    ensures stable { IfOk result (λ labels.
        IsStable c.now.term c.now.values.items labels.items) }
    ensures blocks { IfOk result (λ labels.
        AreBlocks (content_of c.now) (first_states labels.items)) }
{
    first_equivalents_are_numbered();
    let firsts = firsts_of(alloc, c, found)?;
    class_numbers(alloc, firsts.as_slice())
}

/// The list of the blocks of equivalent states.
fn block_list(alloc: Global, c: &Coalgebra, found: &Refinement) -> Result<Vec<u8>, AllocError>
    requires found { IsFound (content_of c.now) found.now }
    ensures { IfOk result (λ output. IsBlockList (content_of c.now) output.items) }
{
    c.names.are_names();
    let labels = classes(alloc, c, found)?;
    blocks_text(alloc, &c.names, labels.as_slice())
}

/// The summary of a drawn coalgebra, by the first states of its classes.
fn summarised(
    alloc: Global,
    kind: TrialKind,
    c: &Coalgebra,
    found: &Refinement,
) -> Result<Vec<u8>, AllocError>
    requires found { IsFound (content_of c.now) found.now }
    ensures { IfOk result (λ output. IsSummary kind (content_of c.now) found.now.refined.labels
        output.items) }
{
    let firsts = firsts_of(alloc, c, found)?;
    let store = found.system.store();
    let labels = found.refined.labels();
    trial_summary(
        alloc,
        kind,
        firsts.as_slice(),
        found.system.sorted(),
        store.len(),
        labels,
    )
}

/// The text of the quotient by equivalence.
fn minimised(alloc: Global, c: &Coalgebra, found: &Refinement) -> Result<Vec<u8>, AllocError>
    requires found { IsFound (content_of c.now) found.now }
    ensures { IfOk result (λ output. IsMinimal (content_of c.now) output.items) }
{
    quotients_are_minimal();
    minimal_systems_are_their_own_quotients();
    texts_spell();
    texts_are_read_back();
    texts_are_of_fractions();
    same_fractions_same_equivalence();
    rescaling_keeps_form();
    let labels = classes(alloc, c, found)?;
    let d = quotient(alloc, c, labels.as_slice())?;
    d.term.is_term();
    d.names.are_names();
    quotient_text(alloc, &d)
}

/// The numbers two by two.
fn pairs_of(alloc: Global, numbers: &[u32]) -> Result<Vec<(u32, u32)>, AllocError>
    ensures { IfOk result (λ pairs. pairs.items ≡ the_pairs_of numbers.now) }
{
    let mut pairs = Vec::with_capacity(alloc, numbers.len() / 2)?;
    for k in 0..numbers.len() / 2 {
        pairs.push((numbers[2 * k], numbers[2 * k + 1]))?;
    }
    Ok(pairs)
}

/// The explanation of the pairs of states with these numbers.
fn explained(
    alloc: Global,
    c: &Coalgebra,
    numbers: &[u32],
    found: &Refinement,
) -> Result<Vec<u8>, AllocError>
    requires found { IsFound (content_of c.now) found.now }
    requires named { All (λ i. i < length c.now.names) numbers.now }
    ensures { IfOk result (λ output. (words : List (List ℕ)) →
        AreNumbers c.now.names words numbers.now →
        IsExplained (content_of c.now) words output.items) }
{
    pair_lines_can_be_said();
    let pairs = pairs_of(alloc, numbers)?;
    let told = state_formulas(alloc, c, &found.system, &found.refined)?;
    let explanation = explain_pairs(alloc, c, &told, pairs.as_slice())?;
    c.names.are_names();
    explanation.dag.is_dag();
    explanation_text(
        alloc,
        &c.names,
        &explanation.dag,
        pairs.as_slice(),
        explanation.verdicts.as_slice(),
    )
}

/// The certificate of the blocks.
fn certified(alloc: Global, c: &Coalgebra, found: &Refinement) -> Result<Vec<u8>, AllocError>
    requires found { IsFound (content_of c.now) found.now }
    ensures { IfOk result (λ output. IsCertified (content_of c.now) output.items) }
{
    block_lines_can_be_said();
    let told = state_formulas(alloc, c, &found.system, &found.refined)?;
    let certificate = certify_classes(alloc, c, &told)?;
    c.names.are_names();
    certificate.dag.is_dag();
    certificate_text(
        alloc,
        &c.names,
        &certificate.dag,
        certificate.formulas.as_slice(),
        certificate.blocks.as_slice(),
    )
}
