//! The pieces of a text, and the parts of a line.
ghost use Rattle.std.specs.Prelude.{◌≡◌, ◌∷◌, ◌==◌, ◌≤◌, length, map, filter, IfOk};
ghost use Rattle.std.specs.List.{slice_split};
ghost use Rattle.file_cut.specs.Bytes.{is_blank};
ghost use Rattle.formula_text.specs.Answers.{parts_of as parts_in, is_some_part};

use std::alloc::{AllocError, Global};

/// The pieces of a text between these bytes.
pub fn pieces<'a>(alloc: Global, text: &'a [u8], sign: u8) -> Result<Vec<&'a [u8]>, AllocError>
    ensures { IfOk result (λ found.
        map (λ piece. piece.now) found.items ≡ slice_split (λ b. b == sign) text.now) }
{
    text.split(|b| *b == sign).collect(alloc)
}

/// The parts of a line: what stands between blanks.
pub fn parts<'a>(alloc: Global, line: &'a [u8]) -> Result<Vec<&'a [u8]>, AllocError>
    ensures { IfOk result (λ found.
        map (λ part. part.now) found.items ≡ parts_in line.now) }
{
    let all = blank_pieces(alloc, line)?;
    some_parts(alloc, all.as_slice())
}

/// The pieces that have a byte.
fn some_parts<'a>(alloc: Global, all: &[&'a [u8]]) -> Result<Vec<&'a [u8]>, AllocError>
    ensures { IfOk result (λ found. map (λ part. part.now) found.items
        ≡ filter is_some_part (map (λ piece. piece.now) all.now)) }
{
    let mut found = Vec::new(alloc);
    for piece in all {
        if !piece.is_empty() {
            found.push(*piece)?;
        }
    }
    Ok(found)
}

/// What stands between single blanks.
fn blank_pieces<'a>(alloc: Global, line: &'a [u8]) -> Result<Vec<&'a [u8]>, AllocError>
    ensures { IfOk result (λ found.
        map (λ piece. piece.now) found.items ≡ slice_split is_blank line.now) }
{
    line.split(|b| *b == b' ' || *b == b'\t').collect(alloc)
}
