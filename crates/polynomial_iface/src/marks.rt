// A list of marks, seen as its list.
use std::marker::Model;

/// One truth value for each place.
#[derive(Debug, Drop)]
pub struct Marks {
    items: Vec<bool>,
}

impl Model for Marks {
    ghost use Rattle.std.specs.Prelude.{List, Bool};

    ghost Value = { List Bool };

    ghost view = { λ marks. marks.items.items };
}

impl Marks {
    ghost use Rattle.std.specs.Prelude.{◌≡◌};

    /// The marks that a vector has.
    pub fn from_vec(items: Vec<bool>) -> Marks
        ensures all_of_them { result ≡ items.items }
    {
        Marks { items }
    }

    /// The marks in order.
    pub fn as_slice(&self) -> &[bool]
        ensures all_of_them { result.now ≡ self.now }
    {
        self.items.as_slice()
    }
}
