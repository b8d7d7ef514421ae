// A list of trits, seen as its list.
use std::alloc::{AllocError, Global};
use std::marker::Model;

/// A list of numbers 0, 1 and 2.
#[derive(Debug, Drop)]
pub struct TritList {
    items: Vec<u8>,
}

impl Model for TritList {
    ghost use Rattle.std.specs.Prelude.{List, ℕ};

    ghost Value = { List ℕ };

    ghost view = { λ trits. trits.items.items };
}

impl TritList {
    ghost use Rattle.std.specs.Prelude.{◌≡◌, IfOk};

    /// The list that a vector has.
    pub fn from_vec(items: Vec<u8>) -> TritList
        ensures all_of_them { result ≡ items.items }
    {
        TritList { items }
    }

    /// The trits in order.
    pub fn as_slice(&self) -> &[u8]
        ensures all_of_them { result.now ≡ self.now }
    {
        self.items.as_slice()
    }

    /// The same trits in memory of their own.
    pub fn copied(&self, alloc: Global) -> Result<TritList, AllocError>
        ensures same { IfOk result (λ copy. copy ≡ self.now) }
    {
        let items = Vec::from_slice(alloc, self.as_slice())?;
        Ok(TritList { items })
    }
}
