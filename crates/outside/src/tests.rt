// A file is copied from a folder into a sink, both in memory: each row says the answers of the
// calls in order, and the bytes that the sink has in the end.
ghost use Rattle.std.specs.Prelude.{◌≡◌, ◌<◌};

use crate::Piece::{End, Got};
use crate::Wrote::Took;
use crate::{Folder, MemFolder, MemSink, Piece, Sink, Steps, Wrote};
use std::alloc::{AllocError, Global};
use std::marker::Brand;
use std::sync::ledger::{Blank, Ledger};
use std::test::Fail;

#[derive(Drop)]
struct Row<'a> {
    about: &'a str,
    name: &'a str,
    piece: usize,
    failing_reads: &'a [u64],
    room: usize,
    chunk: usize,
    failing_writes: &'a [u64],
    reads: &'a [Piece],
    writes: &'a [Wrote],
    bytes: &'a [u8],
}

/// What the calls answered.
#[derive(Drop)]
struct Answers {
    reads: Vec<Piece>,
    writes: Vec<Wrote>,
}

/// Copies a file of at most 9 pieces: after each read one write, and after what a write took the
/// next read. It stops at the end and at a failure.
fn copy<F: Folder, S: Sink>(
    alloc: Global,
    folder: &mut F,
    name: &str,
    sink: &mut S,
) -> Result<Answers, AllocError> {
    let mut answers = Answers {
        reads: Vec::new(alloc),
        writes: Vec::new(alloc),
    };
    let mut buffer = [0; 8];
    let mut from = 0u64;
    for _ in 0..9 {
        let piece = folder.read_piece(name, from, &mut buffer);
        answers.reads.push(piece)?;
        let Piece::Got(count) = piece else {
            return Ok(answers);
        };
        let wrote = sink.write(&buffer[..count]);
        answers.writes.push(wrote)?;
        let Wrote::Took(count) = wrote else {
            return Ok(answers);
        };
        from = from.saturating_add(count as u64);
    }
    Ok(answers)
}

/// A folder with a file of seven bytes, which had others before, and one of none.
fn folder_of(alloc: Global, piece: usize, failing: &[u64]) -> Result<MemFolder, AllocError>
    requires { 0 < piece }
{
    let mut folder = MemFolder::new(alloc, piece, failing)?;
    folder.add("seven", b"old")?;
    folder.add("empty", b"")?;
    folder.add("seven", b"abcdefg")?;
    Ok(folder)
}

/// The file "seven" has the bytes abcdefg, and the buffer is of eight.
const ROWS: &[Row<'static>] = &[
    Row {
        about: "pieces of one byte",
        name: "seven",
        piece: 1,
        failing_reads: &[],
        room: 7,
        chunk: 4,
        failing_writes: &[],
        reads: &[Got(1), Got(1), Got(1), Got(1), Got(1), Got(1), Got(1), End],
        writes: &[
            Took(1),
            Took(1),
            Took(1),
            Took(1),
            Took(1),
            Took(1),
            Took(1),
        ],
        bytes: b"abcdefg",
    },
    Row {
        about: "pieces of three bytes",
        name: "seven",
        piece: 3,
        failing_reads: &[],
        room: 100,
        chunk: 1000,
        failing_writes: &[],
        reads: &[Got(3), Got(3), Got(1), End],
        writes: &[Took(3), Took(3), Took(1)],
        bytes: b"abcdefg",
    },
    Row {
        about: "one piece, taken in chunks of four",
        name: "seven",
        piece: 1000,
        failing_reads: &[],
        room: 100,
        chunk: 4,
        failing_writes: &[],
        reads: &[Got(7), Got(3), End],
        writes: &[Took(4), Took(3)],
        bytes: b"abcdefg",
    },
    Row {
        about: "write 1 fails",
        name: "seven",
        piece: 1000,
        failing_reads: &[],
        room: 100,
        chunk: 4,
        failing_writes: &[1],
        reads: &[Got(7), Got(3)],
        writes: &[Took(4), Wrote::Failed],
        bytes: b"abcd",
    },
    Row {
        about: "read 2 fails",
        name: "seven",
        piece: 3,
        failing_reads: &[2],
        room: 100,
        chunk: 4,
        failing_writes: &[],
        reads: &[Got(3), Got(3), Piece::Failed],
        writes: &[Took(3), Took(3)],
        bytes: b"abcdef",
    },
    Row {
        about: "no room is left",
        name: "seven",
        piece: 3,
        failing_reads: &[],
        room: 5,
        chunk: 4,
        failing_writes: &[],
        reads: &[Got(3), Got(3), Got(2)],
        writes: &[Took(3), Took(2), Wrote::Failed],
        bytes: b"abcde",
    },
    Row {
        about: "an absent name",
        name: "seve",
        piece: 3,
        failing_reads: &[],
        room: 100,
        chunk: 4,
        failing_writes: &[],
        reads: &[Piece::Failed],
        writes: &[],
        bytes: b"",
    },
    Row {
        about: "a file without a byte",
        name: "empty",
        piece: 3,
        failing_reads: &[1],
        room: 0,
        chunk: 4,
        failing_writes: &[],
        reads: &[End],
        writes: &[],
        bytes: b"",
    },
];

#[test]
fn a_copy_has_the_bytes_up_to_the_first_failure(rt: HostRuntime) -> Result<(), Fail> {
    let alloc = rt.alloc();
    for row in ROWS {
        assert!(rt; 0 < row.piece && 0 < row.chunk);
        let mut folder = folder_of(alloc, row.piece, row.failing_reads)?;
        let mut sink = MemSink::new(alloc, row.room, row.chunk, row.failing_writes)?;
        let answers = copy(alloc, &mut folder, row.name, &mut sink)?;
        assert_eq!(rt; answers.reads.as_slice(), row.reads, "{}", row.about);
        assert_eq!(rt; answers.writes.as_slice(), row.writes, "{}", row.about);
        assert_eq!(rt; sink.bytes(), row.bytes, "{}", row.about);
    }
    Ok(())
}

fn bytes_of_a_counter<L: Ledger>(blank: Blank) -> usize
    requires name { blank.name ≡ L.name }
    requires parts { blank.parts ≡ L.parts }
    requires some { 0 < L.parts }
{
    let mut steps = Steps::<L>::fresh(blank);
    steps.tick();
    steps.tick();
    size_of_val(&steps)
}

#[test]
fn a_counter_opens_at_brand_and_takes_no_bytes(rt: HostRuntime) {
    assert_eq!(rt; bytes_of_a_counter::<Brand>(Blank::new(1)), 0);
}
