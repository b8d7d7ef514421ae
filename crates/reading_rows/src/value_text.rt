//! The text of a value, with numbers for states, labels and weights.
use std::alloc::{AllocError, Global};
use typing::Value;

/// Puts the text of a value last: `s2` for a state, `2` for a label, `inj 0 v`, `(v, w)`, `{v, w}`,
/// and `{v: 1}` for a weight list.
#[cycle(push_value)]
pub fn push_value(alloc: Global, text: &mut String, value: &Value) -> Result<(), AllocError> {
    match value {
        Value::State(i) => text.push_str(format!(in alloc; "s{i}")?.as_str())?,
        Value::Label(k) => text.push_str(format!(in alloc; "{k}")?.as_str())?,
        Value::Tuple(parts) => push_values(alloc, text, "(", parts.as_slice(), ")")?,
        Value::Inj(k, inner) => {
            text.push_str(format!(in alloc; "inj {k} ")?.as_str())?;
            push_value(alloc, text, inner.get())?;
        }
        Value::Set(members) => push_values(alloc, text, "{", members.as_slice(), "}")?,
        Value::Weights(entries) => {
            text.push_str("{")?;
            let mut between = "";
            for (value, weight) in entries.as_slice() {
                text.push_str(between)?;
                push_value(alloc, text, value)?;
                text.push_str(format!(in alloc; ": {weight}")?.as_str())?;
                between = ", ";
            }
            text.push_str("}")?;
        }
    }
    Ok(())
}

#[cycle(push_value)]
fn push_values(
    alloc: Global,
    text: &mut String,
    open: &str,
    values: &[Value],
    close: &str,
) -> Result<(), AllocError> {
    text.push_str(open)?;
    let mut between = "";
    for value in values {
        text.push_str(between)?;
        push_value(alloc, text, value)?;
        between = ", ";
    }
    text.push_str(close)?;
    Ok(())
}
