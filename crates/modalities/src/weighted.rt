// Values of structures with weights.
ghost use Rattle.std.specs.Prelude.{◌≡◌, IfOk};
ghost use Rattle.modalities.specs.Values.{triple};

use crate::sums::Sums;
use crate::three::Three;
use sqlite_items::Boxed;
use std::alloc::{AllocError, Global};
use weights::Ratio;

impl Three {
    /// The value with these weights of 0, 1 and 2.
    pub fn of_sums(
        alloc: Global,
        at_zero: Ratio,
        at_one: Ratio,
        at_two: Ratio,
    ) -> Result<Three, AllocError>
        ensures sums { IfOk result (λ t. t ≡ triple at_zero at_one at_two) }
    {
        let sums = Sums {
            at_zero,
            at_one,
            at_two,
        };
        Ok(Three::Triple(Boxed::new(alloc, sums)?))
    }
}
