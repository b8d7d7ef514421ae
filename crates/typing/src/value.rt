use sqlite_items::{Boxed, Items};

/// A structure over states. States and labels are numbers from 0; the parts of a power stand in the
/// order of its labels.
#[derive(Debug, Drop)]
pub enum Value {
    State(u32),
    Label(u64),
    Tuple(Items<Value>),
    Inj(u32, Boxed<Value>),
    Set(Items<Value>),
    Weights(Items<(Value, i128)>),
}
