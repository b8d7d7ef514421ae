//! The text of a quotient.
ghost use Rattle.std.specs.Prelude.{◌≡◌, IfOk};
ghost use Rattle.typing.specs.Contents.{content_of};
ghost use Rattle.structure_writer.specs.Text.{canonical};

use std::alloc::{AllocError, Global};
use structure_writer::write_file;
use typing::Coalgebra;

/// The canonical text of a quotient, which is that of every coalgebra. The error is want of memory.
pub fn quotient_text(alloc: Global, q: &Coalgebra) -> Result<Vec<u8>, AllocError>
    ensures canonical { IfOk result (λ text. text.items ≡ canonical (content_of q.now)) }
{
    write_file(alloc, q)
}
