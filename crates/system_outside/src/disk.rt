// The files of the system as a folder.
ghost use Rattle.std.specs.Prelude.{◌≡◌, ◌≢◌, ◌<◌, ◌≤◌, ℕ, List, length, None};
ghost use Rattle.std.specs.Io.{ReadsAtMost};
ghost use Rattle.outside.specs.Faults.{Rose, one_more};
ghost use Rattle.outside.specs.Reads.{GotWithin};

use crate::piece_of;
use outside::{Folder, Piece};
use std::io::{Read, Seek, SeekFrom};
use std::marker::Model;
use std::rt::Files;
use std::{fs, io};

/// One more than the bytes that the name of a file may have, as the system has it.
const NAME_LIMIT: usize = 4096;

/// The files of the system. What they hold is not told, and one count of faults serves every name.
///
/// The file that was read last stays open, so a file that is replaced meanwhile is read to its end
/// as it was. No call takes memory.
#[derive(Drop)]
pub struct DiskFolder<'a, R: Files> {
    rt: &'a R,
    last: Option<Opened<R::File>>,
    faults: u64,
}

/// A file that is open.
#[derive(Drop)]
struct Opened<F: Drop> {
    // the bytes of its name, in front of zeros
    name: [u8; NAME_LIMIT],
    // how many these are
    len: usize,
    file: F,
    // the place of the next byte that a read without a seek gives
    at: u64,
}

impl<'a, R: Files> Model for DiskFolder<'a, R> {
    ghost use Rattle.std.specs.Prelude.{ℕ};

    ghost Value = { ℕ };

    ghost view = { λ folder. folder.faults };
}

impl<'a, R: Files> DiskFolder<'a, R> {
    /// The files that this runtime opens. No fault is counted yet.
    pub fn new(rt: &'a R) -> Self
        ensures no_fault { result ≡ 0 }
    {
        DiskFolder {
            rt,
            last: None,
            faults: 0,
        }
    }

    /// Reads at a place of a file.
    fn read_at(&mut self, name: &str, from: u64, buf: &mut [u8]) -> io::Result<usize>
        ensures within { ReadsAtMost result buf.new }
        ensures no_fault_is_counted { self.new ≡ self.old }
    {
        let mut opened = self.open(name)?;
        if opened.at != from {
            opened.file.seek(SeekFrom::Start(from))?;
        }
        let count = opened.file.read(buf)?;
        opened.at = from.saturating_add(count as u64);
        self.last = Some(opened);
        Ok(count)
    }

    /// The file of this name: the one that was read last, or one that is opened anew. An error
    /// leaves no file open.
    fn open(&mut self, name: &str) -> io::Result<Opened<R::File>>
        ensures no_fault_is_counted { self.new ≡ self.old }
    {
        let last = self.last.take();
        let bytes = name.as_bytes();
        let len = bytes.len();
        if NAME_LIMIT <= len {
            return Err(io::Error::from(io::ErrorKind::InvalidFilename));
        }
        if let Some(last) = last {
            if last.len == len && &last.name[..len] == bytes {
                return Ok(last);
            }
        }
        let file = fs::open(self.rt, name)?;
        let mut name = [0u8; NAME_LIMIT];
        name[..len].copy_from_slice(bytes);
        Ok(Opened {
            name,
            len,
            file,
            at: 0,
        })
    }
}

impl<'a, R: Files> Folder for DiskFolder<'a, R> {
    ghost files = { λ folder. None };

    ghost faults = { λ folder name. folder };

    fn read_piece(&mut self, name: &str, from: u64, buf: &mut [u8]) -> Piece
        requires { 0 < length buf.old }
        ensures fits_the_buffer { GotWithin result (length buf.old) }
        ensures no_count_falls { self.old ≤ self.new }
        ensures failure_is_counted { result ≡ Piece.Failed → Rose self.old self.new }
        ensures by_one { result ≡ Piece.Failed → self.new ≡ one_more self.old }
        ensures success_counts_nothing { result ≢ Piece.Failed →
            (other : List ℕ) → self.new ≡ self.old }
    {
        let piece = piece_of(self.read_at(name, from, buf));
        if piece == Piece::Failed {
            self.faults = self.faults.saturating_add(1);
        }
        piece
    }
}
