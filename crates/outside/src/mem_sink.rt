// A sink in memory, which takes small pieces and fails where it is told so.
ghost use Rattle.std.specs.Prelude.{◌≡◌, ◌<◌, length, IfOk, Some};
ghost use Rattle.outside.specs.Writes.{TookWithin, TookExactly, is_refused};
ghost use Rattle.outside.specs.SinkState.{empty_sink, write_fails, count_taken, after_write};

use crate::{Sink, Wrote};
use std::alloc::{AllocError, Global};
use std::marker::Model;

/// A sink in memory, which tells the bytes that it took.
///
/// Its writes are numbered from 0. Its room is taken when it is made, so no write takes memory.
#[derive(Drop)]
pub struct MemSink {
    taken: Vec<u8>,
    room: usize,
    chunk: usize,
    failing: Vec<u64>,
    calls: u64,
    faults: u64,
}

impl Model for MemSink {
    ghost use Rattle.std.specs.Prelude.{◌<◌, ◌≤◌, vec_capacity};
    ghost use Rattle.outside.specs.SinkState.{SinkState};

    ghost Value = { SinkState };

    ghost view = { λ sink. record {
      taken = sink.taken.items;
      room = sink.room;
      chunk = sink.chunk;
      failing = sink.failing.items;
      calls = sink.calls;
      faults = sink.faults;
    } };

    ghost invariant = { λ sink. (0 < sink.chunk) × (sink.room ≤ vec_capacity sink.taken) };
}

impl MemSink {
    /// A sink without a byte. It has room for `room` bytes in all and takes at most `chunk`, which
    /// is at least 1, at a write. The writes with the numbers `failing` fail.
    pub fn new(
        alloc: Global,
        room: usize,
        chunk: usize,
        failing: &[u64],
    ) -> Result<MemSink, AllocError>
        requires some_chunk { 0 < chunk }
        ensures begins_empty { IfOk result (λ sink. sink ≡ empty_sink room chunk failing.now) }
    {
        Ok(MemSink {
            taken: Vec::with_capacity(alloc, room)?,
            room,
            chunk,
            failing: Vec::from_slice(alloc, failing)?,
            calls: 0,
            faults: 0,
        })
    }

    /// The bytes taken so far.
    pub fn bytes(&self) -> &[u8]
        ensures all_that_were_taken { result.now ≡ self.now.taken }
    {
        &self.taken
    }
}

impl Sink for MemSink {
    ghost taken = { λ sink. Some sink.taken };

    ghost faults = { λ sink. sink.faults };

    /// Takes as many bytes as the least of the chunk, the room left and those offered. Fails
    /// exactly where the number of this write is among the failing ones or no room is left.
    fn write(&mut self, bytes: &[u8]) -> Wrote
        requires { 0 < length bytes.now }
        ensures within_the_offer { TookWithin result (length bytes.now) }
        ensures takes_exactly { TookExactly result (count_taken self.old (length bytes.now)) }
        ensures fails_exactly { is_refused result ≡ write_fails self.old }
        ensures bytes_and_counts_are_exact { self.new ≡ after_write self.old result bytes.now }
    {
        let number = self.calls;
        self.calls = number.saturating_add(1);
        let left = self.room.saturating_sub(self.taken.len());
        if left == 0 || self.failing.contains(&number) {
            self.faults = self.faults.saturating_add(1);
            return Wrote::Failed;
        }
        let count = self.chunk.min(left).min(bytes.len());
        self.taken.extend_from_slice(&bytes[..count]).unwrap();
        Wrote::Took(count)
    }
}
