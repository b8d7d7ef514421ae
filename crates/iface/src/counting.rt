// Steps are counted label by label.
ghost use Rattle.std.specs.Prelude.{◌≡◌, ◌+◌, ◌<◌, ◌≤◌, ◌^◌};

use outside::Steps;
use std::sync::ledger::Ledger;

/// Counts one step for each of so many labels, which are fewer than 2^26. The count before is at
/// most 2^62.
pub fn count_labels<L: Ledger>(labels: usize, steps: &mut Steps<L>)
    requires few { labels < 2 ^ 26 }
    requires steps_fit { steps.old ≤ 2 ^ 62 }
    ensures one_each { steps.new ≡ steps.old + labels }
{
    for _label in 0..labels {
        steps.tick();
    }
}
