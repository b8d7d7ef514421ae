// A folder in memory, whose reads give small pieces and fail where it is told so.
ghost use Rattle.std.specs.Prelude.{◌≡◌, ◌≢◌, ◌<◌, ◌≤◌, ◌↔◌, ℕ, List, length, IfOk, OnOk, OnErr, Some};
ghost use Rattle.std.specs.Option.{option_map};
ghost use Rattle.std.specs.FinMap as map;
ghost use Rattle.outside.specs.Reads.{GotWithin, GotBytes, IsPastEnd, is_failed};
ghost use Rattle.outside.specs.FolderState.{empty_folder, with_file, read_fails, after_read};
ghost use Rattle.outside.specs.Files.{files_of};

use crate::{Folder, Piece};
use std::alloc::{AllocError, Global};
use std::collections::VecDeque;
use std::marker::Model;

/// A folder in memory, which tells its files.
///
/// Its reads are numbered from 0. One count of faults serves every name.
#[derive(Drop)]
pub struct MemFolder {
    alloc: Global,
    // of two files of one name the first counts, so that a file is replaced by a push
    newest_first: VecDeque<File>,
    piece: usize,
    failing: Vec<u64>,
    calls: u64,
    faults: u64,
}

#[derive(Drop)]
struct File {
    name: String,
    bytes: Vec<u8>,
}

impl Model for MemFolder {
    ghost use Rattle.std.specs.Prelude.{◌<◌};
    ghost use Rattle.outside.specs.FolderState.{FolderState, folder_code};
    ghost use Rattle.outside.specs.Files.{files_of};

    ghost Value = { FolderState };

    ghost coded = { folder_code };

    ghost view = { λ folder. record {
      files = files_of folder.newest_first.items;
      piece = folder.piece;
      failing = folder.failing.items;
      calls = folder.calls;
      faults = folder.faults;
    } };

    ghost invariant = { λ folder. 0 < folder.piece };
}

impl MemFolder {
    /// A folder without a file. A read gives at most `piece` bytes, which is at least 1, and the
    /// reads with the numbers `failing` fail.
    pub fn new(alloc: Global, piece: usize, failing: &[u64]) -> Result<MemFolder, AllocError>
        requires some_piece { 0 < piece }
        ensures begins_empty { IfOk result (λ folder. folder ≡ empty_folder piece failing.now) }
    {
        Ok(MemFolder {
            alloc,
            newest_first: VecDeque::new(alloc),
            piece,
            failing: Vec::from_slice(alloc, failing)?,
            calls: 0,
            faults: 0,
        })
    }

    /// Puts a file into the folder, in place of one of the same name.
    ///
    /// The bytes of a file that was replaced keep their memory. After an error, which is want of
    /// memory alone, the folder is as before.
    pub fn add(&mut self, name: &str, bytes: &[u8]) -> Result<(), AllocError>
        ensures replaces { OnOk result (self.new ≡ with_file self.old name.now bytes.now) }
        ensures unchanged_without_memory { OnErr result (self.new ≡ self.old) }
    {
        let file = File {
            name: String::from_str(self.alloc, name)?,
            bytes: Vec::from_slice(self.alloc, bytes)?,
        };
        self.newest_first.push_front(file)?;
        Ok(())
    }
}

impl Folder for MemFolder {
    ghost files = { λ folder. Some folder.files };

    ghost faults = { λ folder name. folder.faults };

    /// Fails exactly where the number of this read is among the failing ones or no file has the
    /// name.
    fn read_piece(&mut self, name: &str, from: u64, buf: &mut [u8]) -> Piece
        requires { 0 < length buf.old }
        ensures fits_the_buffer { GotWithin result (length buf.old) }
        ensures bytes_are_the_files { GotBytes result
            (map.get self.old.files name.now) from buf.new }
        ensures end_exactly_past_the_bytes { result ≢ Piece.Failed →
            (result ≡ Piece.End ↔ IsPastEnd (map.get self.old.files name.now) from) }
        ensures at_most_a_piece { GotWithin result self.old.piece }
        ensures fails_exactly { is_failed result ≡ read_fails self.old name.now }
        ensures files_stay_and_counts_are_exact { self.new ≡ after_read self.old name.now }
    {
        let number = self.calls;
        self.calls = number.saturating_add(1);
        if !self.failing.contains(&number) {
            if let Some(bytes) = find(&self.newest_first, name) {
                return copy_piece(bytes, from, self.piece, buf);
            }
        }
        self.faults = self.faults.saturating_add(1);
        Piece::Failed
    }
}

/// The bytes of the newest file of this name.
fn find<'a>(newest_first: &'a VecDeque<File>, name: &str) -> Option<&'a [u8]>
    ensures { option_map (λ bytes. bytes.now) result ≡
        map.get (files_of newest_first.now.items) name.now }
{
    for file in newest_first {
        if name == file.name.as_str() {
            return Some(&file.bytes);
        }
    }
    None
}

/// Copies bytes from a place on, at most so many, to the front of the buffer.
fn copy_piece(bytes: &[u8], from: u64, most: usize, buf: &mut [u8]) -> Piece
    requires some { 0 < most }
    requires room { 0 < length buf.old }
    ensures at_most_a_piece { GotWithin result most }
    ensures fits_the_buffer { GotWithin result (length buf.old) }
    ensures bytes_are_the_files { GotBytes result (Some bytes.now) from buf.new }
    ensures end_exactly_past_the_bytes { result ≡ Piece.End ↔ length bytes.now ≤ from }
    ensures never_fails { result ≢ Piece.Failed }
{
    if bytes.len() as u64 <= from {
        return Piece::End;
    }
    let rest = &bytes[from as usize..];
    let count = rest.len().min(most).min(buf.len());
    buf[..count].copy_from_slice(&rest[..count]);
    Piece::Got(count)
}
