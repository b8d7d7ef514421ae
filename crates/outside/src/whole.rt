// Whole files and whole texts, through the pieces of a folder and of a sink.
ghost use Rattle.std.specs.Prelude.{◌≡◌, ◌≢◌, ◌<◌, ◌≤◌, ◌+◌, ◌-◌, ◌^◌, ℕ, List, [], length, take, true, false, IfSome, IfOk, OnOk, IsErrOf, Err, Some, vec_len};
ghost use Rattle.std.specs.Io.KnownBytes.{append_known};
ghost use Rattle.std.specs.FinMap as map;
ghost use Rattle.outside.specs.Faults.{Rose};
ghost use Rattle.outside.specs.Whole.{BeginsWith, IsLongerThan};

use crate::{Folder, Piece, Sink, Wrote};
use std::alloc::{AllocError, Global};

/// Why a whole file was not read.
#[derive(Clone, Copy, Debug, PartialEq, Eq)]
pub enum ReadAll {
    /// A read failed.
    Failed,
    /// The file has more bytes than the bound.
    TooLong,
    /// There was no memory for its bytes.
    NoMemory,
}

/// The most bytes that are asked for at once.
const MOST_AT_ONCE: usize = 65_536;

/// Reads a whole file, if it has at most `bound` bytes, which is at most 2^26. At most one byte
/// over the bound is read.
pub fn read_all<F: Folder>(
    alloc: Global,
    folder: &mut F,
    name: &str,
    bound: u64,
) -> Result<Vec<u8>, ReadAll>
    requires { bound ≤ 2 ^ 26 }
    ensures whole_file { IfOk result (λ bytes. IfSome (F.files folder.old) (λ files.
        map.get files name.now ≡ Some bytes.items)) }
    ensures within_the_bound { IfOk result (λ bytes. vec_len bytes ≤ bound) }
    ensures too_long { IsErrOf result ReadAll.TooLong →
        IfSome (F.files folder.old) (λ files. IsLongerThan (map.get files name.now) bound) }
    ensures failure_is_counted { IsErrOf result ReadAll.Failed →
        Rose (F.faults folder.old name.now) (F.faults folder.new name.now) }
    ensures success_counts_nothing { result ≢ Err ReadAll.Failed →
        (other : List ℕ) → F.faults folder.new other ≡ F.faults folder.old other }
    ensures files_stay { F.files folder.new ≡ F.files folder.old }
    ensures no_count_falls { (other : List ℕ) →
        F.faults folder.old other ≤ F.faults folder.new other }
{
    let Ok(mut buffer) = room_for(alloc, MOST_AT_ONCE) else {
        return Err(ReadAll::NoMemory);
    };
    let mut bytes = Vec::new(alloc);
    'pieces: while bytes.len() as u64 <= bound {
        match read_more(folder, name, bound, &mut buffer, &mut bytes) {
            Ok(false) => {}
            Ok(true) => return Ok(bytes),
            Err(fault) => return Err(fault),
        }
    }
    Err(ReadAll::TooLong)
}

/// A buffer of so many bytes. It stands apart, since a literal size beside the loop makes the proof
/// of the loop slow.
fn room_for(alloc: Global, size: usize) -> Result<Vec<u8>, AllocError>
    ensures { IfOk result (λ buffer. vec_len buffer ≡ size) }
{
    vec![in alloc; 0u8; size]
}

/// Reads one piece behind the bytes read so far, up to one byte over the bound. True at the end of
/// the file.
fn read_more<F: Folder>(
    folder: &mut F,
    name: &str,
    bound: u64,
    buffer: &mut [u8],
    bytes: &mut Vec<u8>,
) -> Result<bool, ReadAll>
    requires bound { bound ≤ 2 ^ 26 }
    requires within_the_bound { vec_len bytes.old ≤ bound }
    requires some_room { 0 < length buffer.old }
    requires begins { IfSome (F.files folder.old) (λ files.
        BeginsWith (map.get files name.now) bytes.old.items) }
    ensures end_adds_nothing { IfOk result (λ at_end.
        at_end ≡ true → (bytes.new.items ≡ bytes.old.items)) }
    ensures whole_file { IfOk result (λ at_end.
        at_end ≡ true → IfSome (F.files folder.old) (λ files.
        map.get files name.now ≡ Some bytes.new.items)) }
    ensures more { IfOk result (λ at_end.
        at_end ≡ false → (vec_len bytes.old < vec_len bytes.new)) }
    ensures at_most_one_over { OnOk result (vec_len bytes.new ≤ bound + 1) }
    ensures begins { OnOk result (IfSome (F.files folder.old) (λ files.
        BeginsWith (map.get files name.now) bytes.new.items)) }
    ensures never_too_long { IsErrOf result ReadAll.TooLong → ⊥ }
    ensures failure_is_counted { IsErrOf result ReadAll.Failed →
        Rose (F.faults folder.old name.now) (F.faults folder.new name.now) }
    ensures success_counts_nothing { result ≢ Err ReadAll.Failed →
        (other : List ℕ) → F.faults folder.new other ≡ F.faults folder.old other }
    ensures files_stay { F.files folder.new ≡ F.files folder.old }
    ensures no_count_falls { (other : List ℕ) →
        F.faults folder.old other ≤ F.faults folder.new other }
{
    let from = bytes.len() as u64;
    let room = ((bound + 1 - from) as usize).min(buffer.len());
    let piece = &mut buffer[..room];
    match folder.read_piece(name, from, piece) {
        Piece::Got(count) => match bytes.extend_from_slice(&piece[..count]) {
            Ok(()) => Ok(false),
            Err(_) => Err(ReadAll::NoMemory),
        },
        Piece::End => Ok(true),
        Piece::Failed => Err(ReadAll::Failed),
    }
}

/// Writes all the bytes. False where a write failed; some bytes from their front were taken then.
/// No byte makes no call. It takes no memory.
pub fn put_all<S: Sink>(sink: &mut S, bytes: &[u8]) -> bool
    ensures whole { result ≡ true →
        S.taken sink.new ≡ append_known (S.taken sink.old) bytes.now }
    ensures front { (count : ℕ) ×
        (S.taken sink.new ≡ append_known (S.taken sink.old) (take count bytes.now)) }
    ensures failure_is_counted { result ≡ false →
        Rose (S.faults sink.old) (S.faults sink.new) }
    ensures success_counts_nothing { result ≡ true → S.faults sink.new ≡ S.faults sink.old }
    ensures no_count_falls { S.faults sink.old ≤ S.faults sink.new }
    ensures no_call_for_no_byte { bytes.now ≡ [] → sink.new ≡ sink.old }
{
    let mut done = 0;
    'rest: while done < bytes.len() {
        match sink.write(&bytes[done..]) {
            Wrote::Took(count) => done += count,
            Wrote::Failed => return false,
        }
    }
    true
}
