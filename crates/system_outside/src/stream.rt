// A writer of the system as a sink.
ghost use Rattle.std.specs.Prelude.{◌≡◌, ◌≢◌, ◌<◌, ◌≤◌, length, None};
ghost use Rattle.outside.specs.Faults.{one_more};
ghost use Rattle.outside.specs.Writes.{TookWithin};

use crate::wrote_of;
use outside::{Sink, Wrote};
use std::io::Write;
use std::marker::Model;

/// A writer. What it took is not told.
#[derive(Drop)]
pub struct Stream<W: Write> {
    inner: W,
    faults: u64,
}

impl<W: Write> Model for Stream<W> {
    ghost use Rattle.std.specs.Prelude.{ℕ};

    ghost Value = { ℕ };

    ghost view = { λ stream. stream.faults };
}

impl<W: Write> Stream<W> {
    /// A sink over this writer. No fault is counted yet.
    pub fn new(inner: W) -> Self
        ensures no_fault { result ≡ 0 }
    {
        Stream { inner, faults: 0 }
    }
}

impl<W: Write> Sink for Stream<W> {
    ghost taken = { λ stream. None };

    ghost faults = { λ stream. stream };

    fn write(&mut self, bytes: &[u8]) -> Wrote
        requires { 0 < length bytes.now }
        ensures within_the_offer { TookWithin result (length bytes.now) }
        ensures no_count_falls { self.old ≤ self.new }
        ensures failure_is_counted { result ≡ Wrote.Failed → self.new ≡ one_more self.old }
        ensures success_counts_nothing { result ≢ Wrote.Failed → self.new ≡ self.old }
    {
        let wrote = wrote_of(self.inner.write(bytes));
        if wrote == Wrote::Failed {
            self.faults = self.faults.saturating_add(1);
        }
        wrote
    }
}
