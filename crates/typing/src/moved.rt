ghost use Rattle.std.specs.Prelude.{◌≡◌, ◌+◌, ◌<◌, ◌≤◌, ◌++◌, map, length, IsTrue, IfOk};
ghost use Rattle.std.specs.List.{list_all};
ghost use Rattle.typing.specs.Values.{relabelled as the_relabelled, states_below};

use crate::value::Value;
use sqlite_items::{Boxed, Items};
use std::alloc::{AllocError, Global};

/// The value with each state replaced by its label.
#[cycle(relabelled)]
pub fn relabelled(alloc: Global, value: &Value, labels: &[u32]) -> Result<Value, AllocError>
    requires { IsTrue (states_below (length labels.now) value.now) }
    ensures { IfOk result (λ new. new ≡ the_relabelled labels.now value.now) }
{
    match value {
        Value::State(i) => Ok(Value::State(labels[*i as usize])),
        Value::Label(n) => Ok(Value::Label(*n)),
        Value::Tuple(parts) => Ok(Value::Tuple(map_each(alloc, parts, labels)?)),
        Value::Inj(k, inner) => {
            let new = relabelled(alloc, inner.get(), labels)?;
            Ok(Value::Inj(*k, Boxed::new(alloc, new)?))
        }
        Value::Set(members) => Ok(Value::Set(map_each(alloc, members, labels)?)),
        Value::Weights(entries) => {
            let mut new = Items::new(alloc);
            for (value, weight) in entries.as_slice() {
                new.push((relabelled(alloc, value, labels)?, *weight))?;
            }
            Ok(Value::Weights(new))
        }
    }
}

#[cycle(relabelled)]
fn map_each(
    alloc: Global,
    values: &Items<Value>,
    labels: &[u32],
) -> Result<Items<Value>, AllocError>
    requires { IsTrue (list_all (states_below (length labels.now)) values.now) }
    ensures { IfOk result (λ new. new ≡ map (the_relabelled labels.now) values.now) }
{
    let mut new = Items::new(alloc);
    for value in values.as_slice() {
        new.push(relabelled(alloc, value, labels)?)?;
    }
    Ok(new)
}
