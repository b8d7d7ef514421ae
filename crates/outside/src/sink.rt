// A sink of bytes, written piece by piece.
ghost use Rattle.std.specs.Prelude.{◌≡◌, ◌≢◌, ◌<◌, ◌≤◌, ℕ, List, length, Option};
ghost use Rattle.std.specs.Io.KnownBytes.{append_known};
ghost use Rattle.outside.specs.Faults.{Rose};
ghost use Rattle.outside.specs.Writes.{TookWithin, part_taken};

/// What a write answers.
#[derive(Clone, Copy, Debug, PartialEq, Eq)]
pub enum Wrote {
    /// So many of the bytes, at least one, were taken from the front.
    Took(usize),
    /// The write failed, and the count of faults tells so. No byte was taken.
    Failed,
}

/// Where bytes go.
///
/// A sink may tell the bytes that it took. It has one count of faults.
pub trait Sink {
    /// The bytes taken so far, where the sink tells them.
    ghost taken: { Self → Option (List ℕ) };

    /// The count of faults.
    ghost faults: { Self → ℕ };

    /// Offers `bytes`, at least one, of which the sink takes some from the front. How many it takes
    /// is open.
    fn write(&mut self, bytes: &[u8]) -> Wrote
        requires { 0 < length bytes.now }
        ensures within_the_offer { TookWithin result (length bytes.now) }
        ensures just_these_are_appended { taken self.new ≡
            append_known (taken self.old) (part_taken result bytes.now) }
        ensures no_count_falls { faults self.old ≤ faults self.new }
        ensures failure_is_counted { result ≡ Wrote.Failed →
            Rose (faults self.old) (faults self.new) }
        ensures success_counts_nothing { result ≢ Wrote.Failed →
            faults self.new ≡ faults self.old };
}
