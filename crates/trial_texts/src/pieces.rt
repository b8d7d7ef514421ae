//! Names, numbers and entries, put last in a text.
ghost use Rattle.std.specs.Prelude.{◌≡◌, ◌+◌, ◌-◌, ◌<◌, ◌≤◌, ◌++◌, [], OnOk, codes, decimal, nat_lt, if◌then◌else◌};
ghost use Rattle.trial_texts.specs.Text.{name_text, letter_text, eighths_text, weight_text, move_text, chance_text, sum_text, end_text};

use itoa::Buffer;
use std::alloc::AllocError;

/// Puts a number last.
pub(crate) fn push_number(text: &mut Vec<u8>, n: u32) -> Result<(), AllocError>
    ensures { OnOk result (text.new.items ≡ text.old.items ++ decimal n) }
{
    let mut digits = Buffer::new();
    text.extend_from_slice(digits.format(n).as_bytes())
}

/// Puts the name of a state last.
pub(crate) fn push_name(text: &mut Vec<u8>, state: u32) -> Result<(), AllocError>
    ensures { OnOk result (text.new.items ≡ text.old.items ++ name_text state) }
{
    text.push(b's')?;
    push_number(text, state)
}

/// Puts a weight less 3 last.
fn push_weight(text: &mut Vec<u8>, weight: u32) -> Result<(), AllocError>
    ensures { OnOk result (text.new.items ≡ text.old.items ++ weight_text weight) }
{
    if weight < 3 {
        text.push(b'-')?;
        return push_number(text, 3 - weight);
    }
    push_number(text, weight - 3)
}

/// Puts a label and a target last.
pub(crate) fn push_move(text: &mut Vec<u8>, label: u32, target: u32) -> Result<(), AllocError>
    requires { label < 3 }
    ensures { OnOk result (text.new.items ≡ text.old.items ++ move_text (label, target)) }
{
    text.push(b'(')?;
    text.push(b'a' + label as u8)?;
    text.extend_from_slice(b", ".as_slice())?;
    push_name(text, target)?;
    text.push(b')')?;
    Ok(())
}

/// Puts a target and its eighths last.
pub(crate) fn push_chance(text: &mut Vec<u8>, target: u32, k: u32) -> Result<(), AllocError>
    ensures { OnOk result (text.new.items ≡ text.old.items ++ chance_text target k) }
{
    push_name(text, target)?;
    text.extend_from_slice(b": ".as_slice())?;
    push_number(text, k)?;
    text.extend_from_slice(b"/8".as_slice())
}

/// Puts a target and its weight, less 3, last.
pub(crate) fn push_sum(text: &mut Vec<u8>, target: u32, weight: u32) -> Result<(), AllocError>
    ensures { OnOk result (text.new.items ≡ text.old.items ++ sum_text (target, weight)) }
{
    push_name(text, target)?;
    text.extend_from_slice(b": ".as_slice())?;
    push_weight(text, weight)
}

/// Puts a label and the target by it last.
pub(crate) fn push_end(text: &mut Vec<u8>, label: u32, target: u32) -> Result<(), AllocError>
    requires { label < 2 }
    ensures { OnOk result (text.new.items ≡ text.old.items ++ end_text label target) }
{
    text.push(b'a' + label as u8)?;
    text.extend_from_slice(b": ".as_slice())?;
    push_name(text, target)
}

/// Puts a comma and a space last, if an entry follows.
pub(crate) fn push_between(text: &mut Vec<u8>, left: u32) -> Result<(), AllocError>
    ensures { OnOk result (text.new.items
        ≡ text.old.items ++ (if nat_lt 0 left then codes ", " else [])) }
{
    if left > 0 {
        return text.extend_from_slice(b", ".as_slice());
    }
    Ok(())
}
