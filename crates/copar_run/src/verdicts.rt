//! The line that tells why an answer is wrong.
ghost use Rattle.std.specs.Prelude.{◌≡◌, ◌++◌, length, codes, IfOk, OnOk};
ghost use Rattle.std.specs.Fmt.{decimal};
ghost use Rattle.answer_writer.specs.Lines.{name_of};
ghost use Rattle.answer_checker.specs.declared.verdict.Verdict.TheVariants.{No};
ghost use Rattle.copar_run.specs.Verified.{AreReasonStates, verdict_text};

use answer_checker::Reason;
use itoa::Buffer;
use std::alloc::{AllocError, Global};
use typing::Names;

/// The line that tells why an answer is wrong. The error is want of memory.
pub(crate) fn reason_line(
    alloc: Global,
    names: &Names,
    reason: Reason,
) -> Result<Vec<u8>, AllocError>
    requires named { AreReasonStates (length names.now) reason }
    ensures line { IfOk result (λ text. text.items ≡ verdict_text names.now (No reason)) }
{
    let mut text = Vec::from_slice(alloc, b"wrong ")?;
    match reason {
        Reason::Missing(i) => {
            text.extend_from_slice(b"missing ")?;
            text.extend_from_slice(names.name(i))?;
        }
        Reason::Twice(i) => {
            text.extend_from_slice(b"twice ")?;
            text.extend_from_slice(names.name(i))?;
        }
        Reason::Unstable(x, y) => {
            text.extend_from_slice(b"unstable ")?;
            text.extend_from_slice(names.name(x))?;
            text.push(b' ')?;
            text.extend_from_slice(names.name(y))?;
        }
        Reason::Wrong(f, x) => {
            let mut digits = Buffer::new();
            text.extend_from_slice(b"formula f")?;
            text.extend_from_slice(digits.format(f).as_bytes())?;
            text.push(b' ')?;
            text.extend_from_slice(names.name(x))?;
        }
    }
    text.push(b'\n')?;
    Ok(text)
}
