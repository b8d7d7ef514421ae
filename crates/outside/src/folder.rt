// A folder of files, read piece by piece.
ghost use Rattle.std.specs.Prelude.{◌≡◌, ◌≢◌, ◌<◌, ◌≤◌, ◌↔◌, ℕ, List, length, IfSome, Option, None};
ghost use Rattle.std.specs.Ordering.{nat_cmp};
ghost use Rattle.std.specs.Cmp.Lexicographic.{slice_cmp};
ghost use Rattle.std.specs.FinMap as map;
ghost use Rattle.outside.specs.Faults.{Rose};
ghost use Rattle.outside.specs.Reads.{GotWithin, GotBytes, IsPastEnd};

/// What a read of one piece answers.
#[derive(Clone, Copy, Debug, PartialEq, Eq)]
pub enum Piece {
    /// So many bytes, at least one, at the front of the buffer.
    Got(usize),
    /// The file is there, and has no byte at the place or after it.
    End,
    /// The read failed, and the count of faults of the name tells so. An absent file is such a
    /// failure.
    Failed,
}

/// A folder of files.
///
/// It may tell what its files hold: a map from the bytes of names to the bytes of files. For each
/// name it has a count of faults.
pub trait Folder {
    /// The files, where the folder tells them.
    ghost files: { Self → Option (map.FinMap (slice_cmp nat_cmp) (List ℕ)) };

    /// For each name, the count of faults.
    ghost faults: { Self → List ℕ → ℕ };

    /// Reads bytes of the file `name`, from the byte `from` on (the first is byte 0), to the front
    /// of `buf`, which is not empty.
    ///
    /// The rest of `buf` is not promised, nor any of it after `End` or `Failed`. How many bytes
    /// come at once is open.
    fn read_piece(&mut self, name: &str, from: u64, buf: &mut [u8]) -> Piece
        requires { 0 < length buf.old }
        ensures fits_the_buffer { GotWithin result (length buf.old) }
        ensures bytes_are_the_files { IfSome (files self.old) (λ files.
            GotBytes result (map.get files name.now) from buf.new) }
        ensures end_exactly_past_the_bytes { IfSome (files self.old) (λ files.
            result ≢ Piece.Failed →
            (result ≡ Piece.End ↔ IsPastEnd (map.get files name.now) from)) }
        ensures absent_file_fails { IfSome (files self.old) (λ files.
            map.get files name.now ≡ None → result ≡ Piece.Failed) }
        ensures files_stay { files self.new ≡ files self.old }
        ensures no_count_falls { (other : List ℕ) → faults self.old other ≤ faults self.new other }
        ensures failure_is_counted { result ≡ Piece.Failed →
            Rose (faults self.old name.now) (faults self.new name.now) }
        ensures success_counts_nothing { result ≢ Piece.Failed →
            (other : List ℕ) → faults self.new other ≡ faults self.old other };
}
