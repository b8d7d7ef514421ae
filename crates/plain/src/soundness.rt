//! Values whose states are in range and whose weights can be summed.
ghost use Rattle.std.specs.Prelude.{◌≡◌, ◌&&◌, ◌^◌, map, nat_le};
ghost use Rattle.std.specs.List.{list_all};
ghost use Rattle.typing.specs.Values.{states_below as the_states_below};
ghost use Rattle.typing.specs.Bounds.{is_bounded as the_is_bounded, absolute_sum};

use sqlite_items::Items;
use typing::Value;

/// Whether each state number in the value is below n, and no sum of its weights wraps.
pub fn is_sound(value: &Value, n: usize) -> bool
    ensures { result ≡ (the_states_below n value.now && the_is_bounded value.now) }
{
    states_below(value, n) && is_bounded(value)
}

/// The same of each value in a list.
pub fn are_sound(values: &[Value], n: usize) -> bool
    ensures { result ≡
        (list_all (the_states_below n) values.now && list_all the_is_bounded values.now) }
{
    all_below(values, n) && all_bounded(values)
}

fn all_below(values: &[Value], n: usize) -> bool
    ensures { result ≡ list_all (the_states_below n) values.now }
{
    for value in values {
        if !states_below(value, n) {
            return false;
        }
    }
    true
}

fn all_bounded(values: &[Value]) -> bool
    ensures { result ≡ list_all the_is_bounded values.now }
{
    for value in values {
        if !is_bounded(value) {
            return false;
        }
    }
    true
}

/// Whether each state number in the value is below n.
#[cycle(states_below)]
fn states_below(value: &Value, n: usize) -> bool
    ensures { result ≡ the_states_below n value.now }
{
    match value {
        Value::State(i) => (*i as usize) < n,
        Value::Label(_) => true,
        Value::Tuple(parts) => each_below(parts, n),
        Value::Inj(_, inner) => states_below(inner.get(), n),
        Value::Set(members) => each_below(members, n),
        Value::Weights(entries) => {
            for (value, _) in entries.as_slice() {
                if !states_below(value, n) {
                    return false;
                }
            }
            true
        }
    }
}

#[cycle(states_below)]
fn each_below(values: &Items<Value>, n: usize) -> bool
    ensures { result ≡ list_all (λ b. b) (map (the_states_below n) values.now) }
{
    for value in values.as_slice() {
        if !states_below(value, n) {
            return false;
        }
    }
    true
}

/// Whether the absolute weights of each one structure in it sum to at most 2^126.
#[cycle(is_bounded)]
fn is_bounded(value: &Value) -> bool
    ensures { result ≡ the_is_bounded value.now }
{
    match value {
        Value::State(_) | Value::Label(_) => true,
        Value::Tuple(parts) => each_bounded(parts),
        Value::Inj(_, inner) => is_bounded(inner.get()),
        Value::Set(members) => each_bounded(members),
        Value::Weights(entries) => {
            for (value, _) in entries.as_slice() {
                if !is_bounded(value) {
                    return false;
                }
            }
            sum_is_bounded(entries.as_slice())
        }
    }
}

#[cycle(is_bounded)]
fn each_bounded(values: &Items<Value>) -> bool
    ensures { result ≡ list_all (λ b. b) (map the_is_bounded values.now) }
{
    for value in values.as_slice() {
        if !is_bounded(value) {
            return false;
        }
    }
    true
}

/// Whether the absolute weights sum to at most 2^126.
fn sum_is_bounded(entries: &[(Value, i128)]) -> bool
    ensures { result ≡ nat_le (absolute_sum entries.now) (2 ^ 126) }
{
    let mut left = 1u128 << 126;
    let mut rest = entries;
    while let Some((entry, more)) = rest.split_first() {
        let size = entry.1.unsigned_abs();
        if size > left {
            return false;
        }
        left -= size;
        rest = more;
    }
    true
}
