// A counter that contracts see and that takes no bytes.
ghost use Rattle.std.specs.Prelude.{◌≡◌, ◌<◌, ◌+◌, ◌^◌};

use std::marker::Model;
use std::sync::ledger::{Blank, Book, Ledger, Share};

/// How many steps were taken.
///
/// Only `tick` changes the count, and a ledger is opened once, so the count never falls. At run
/// time a counter takes no bytes and a step no instruction.
#[derive(Drop)]
pub struct Steps<L: Ledger> {
    book: Book<L>,
    share: Share<L>,
}

impl<L: Ledger> Model for Steps<L> {
    ghost use Rattle.std.specs.Prelude.{◌<◌, ℕ};

    ghost Value = { ℕ };

    ghost view = { λ steps. steps.book.total };

    ghost invariant = { λ steps. 0 < steps.share.parts };
}

impl<L: Ledger> Steps<L> {
    /// A counter over the ledger of this blank, which is fresh and has at least one part. Its count
    /// is 0.
    pub fn fresh(blank: Blank) -> Steps<L>
        requires blank_of_this_ledger { blank.name ≡ L.name }
        requires all_its_parts { blank.parts ≡ L.parts }
        requires some_part { 0 < L.parts }
        ensures begins_at_zero { result ≡ 0 }
    {
        // a counter takes no bytes, whatever the ledger
        prove!(size_of::<Steps<L>>() == 0);
        let (book, share) = blank.open::<L>();
        Steps { book, share }
    }

    /// Counts one step. The count before is below 2^63.
    pub fn tick(&mut self)
        requires below_the_bound { self.old < 2 ^ 63 }
        ensures one_more { self.new ≡ self.old + 1 }
    {
        self.book.add(&mut self.share, 1);
    }
}
