// The values of one layer.
ghost use Rattle.std.specs.Prelude.{◌≡◌, IfOk};

use crate::sums::Sums;
use crate::trit_list::TritList;
use sqlite_items::Boxed;
use std::alloc::{AllocError, Global};

/// A value of one layer over the three successors 0, 1 and 2. A trit is one of these numbers.
#[derive(Debug, Drop)]
pub enum Three {
    /// The element of a set of constants.
    Label(u64),
    /// The one successor.
    Trit(u8),
    /// The successors at the places of a product or power, in order.
    Trits(TritList),
    /// The summand, counted from 0, and the successor in it.
    Tagged(u32, u8),
    /// The set of successors: bit i is set exactly where i is in the set.
    Members(u8),
    /// The weights of 0, 1 and 2. They stand behind a pointer, since they are three times as large
    /// as any other value.
    Triple(Boxed<Sums>),
}

impl Three {
    /// The same value in memory of its own.
    pub fn copied(&self, alloc: Global) -> Result<Three, AllocError>
        ensures same { IfOk result (λ copy. copy ≡ self.now) }
    {
        match self {
            Three::Label(n) => Ok(Three::Label(*n)),
            Three::Trit(t) => Ok(Three::Trit(*t)),
            Three::Trits(trits) => Ok(Three::Trits(trits.copied(alloc)?)),
            Three::Tagged(i, t) => Ok(Three::Tagged(*i, *t)),
            Three::Members(bits) => Ok(Three::Members(*bits)),
            Three::Triple(sums) => Ok(Three::Triple(Boxed::new(alloc, *sums.get())?)),
        }
    }
}
