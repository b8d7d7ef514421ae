// What an answer of the system becomes.
ghost use Rattle.std.specs.Prelude.{◌≡◌};
ghost use Rattle.system_outside.specs.Answers.{piece_for, wrote_for};

use outside::{Piece, Wrote};
use std::io;

/// What an answer of the system to a read becomes: no byte is the end of the file, and an error is
/// a failure.
pub fn piece_of(read: io::Result<usize>) -> Piece
    ensures { result ≡ piece_for read }
{
    match read {
        Ok(0) => Piece::End,
        Ok(count) => Piece::Got(count),
        Err(_) => Piece::Failed,
    }
}

/// What an answer of the system to a write becomes: a write that takes no byte is a failure, as an
/// error is.
pub fn wrote_of(written: io::Result<usize>) -> Wrote
    ensures { result ≡ wrote_for written }
{
    match written {
        Ok(0) => Wrote::Failed,
        Ok(count) => Wrote::Took(count),
        Err(_) => Wrote::Failed,
    }
}
