//! Words of lines.
ghost use Rattle.std.specs.Prelude.{◌≡◌, ◌<◌, ◌++◌, length, OnOk};
ghost use Rattle.std.specs.Fmt.{decimal};
ghost use Rattle.formula_text.specs.Answers.{formula_name};
ghost use Rattle.answer_writer.specs.Lines.{name_of};

use itoa::Buffer;
use std::alloc::AllocError;
use typing::Names;

/// Puts a number last.
pub fn push_number(text: &mut Vec<u8>, n: u64) -> Result<(), AllocError>
    ensures number_is_last { OnOk result (text.new.items ≡ text.old.items ++ decimal n) }
{
    let mut digits = Buffer::new();
    text.extend_from_slice(digits.format(n).as_bytes())?;
    Ok(())
}

/// Puts the name of a formula last.
pub fn push_formula(text: &mut Vec<u8>, k: u32) -> Result<(), AllocError>
    ensures name_is_last { OnOk result (text.new.items ≡ text.old.items ++ formula_name k) }
{
    text.push(b'f')?;
    push_number(text, k as u64)
}

/// Puts the name of a state last.
pub fn push_state(text: &mut Vec<u8>, names: &Names, i: u32) -> Result<(), AllocError>
    requires { i < length names.now }
    ensures name_is_last { OnOk result (text.new.items ≡ text.old.items ++ name_of names.now i) }
{
    text.extend_from_slice(names.name(i))?;
    Ok(())
}
