//! Trials: a drawn coalgebra, and its summary.
ghost use Rattle.std.specs.Prelude.{◌≡◌, ◌+◌, ◌≤◌, ◌^◌, ℕ, IfOk, IfErr};
ghost use Rattle.typing.specs.Contents.{Content};
ghost use Rattle.trial_texts.specs.Text.{IsSized, text_of_trial};
ghost use Rattle.structure_parser.specs.Reads.{Reads};
ghost use Rattle.copar_run.specs.Outputs.{IsCounted};
ghost use Rattle.copar_run.specs.Summarised.{IsSummary};

use crate::Status;
use crate::ended::Ended;
use crate::outputs::summary_output;
use crate::reading::coalgebra_of;
use outside::Steps;
use std::alloc::Global;
use std::sync::ledger::Ledger;
use trial_files::{trial_texts_are_accepted, trial_texts_are_short};
use trial_texts::{TrialKind, trial_text};

/// The summary of a coalgebra of this kind and size, drawn from the seed on. Its text is read as a
/// file is, and has no fault.
pub(crate) fn trial_output<'w, L: Ledger>(
    alloc: Global,
    kind: TrialKind,
    seed: u64,
    size: u32,
    steps: &mut Steps<L>,
) -> Result<Vec<u8>, Ended<'w>>
    requires steps_fit { steps.old ≤ 2 ^ 60 }
    requires sized { IsSized size }
    ensures prints { IfOk result (λ output. (rise : ℕ) × (steps.new ≡ steps.old + rise)
        × ((c : Content) × Reads (text_of_trial kind seed size) c × IsCounted c rise
        × IsSummary kind c rise output.items)) }
    ensures wanting { IfErr result (λ ended. ended.status ≡ Status.NoMemory) }
    ensures grows { steps.old ≤ steps.new }
{
    trial_texts_are_short();
    trial_texts_are_accepted();
    let text = trial_text(alloc, kind, seed, size)?;
    let c = match coalgebra_of(alloc, &text) {
        Ok(c) => c,
        Err(status) => return Err(Ended::by(status)),
    };
    let output = summary_output(alloc, kind, &c, steps)?;
    Ok(output)
}
