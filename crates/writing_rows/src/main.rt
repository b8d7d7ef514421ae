//! Files, and the canonical text of what they are read as. Each line of the input is a file, in
//! which `;` stands for a line feed. The answer is the text, written so too, or `refused` where the
//! file has a fault. Behind it stands `, then ..` where the text is read and written as another.
#![tactic(auto)]

use std::alloc::{AllocError, Global};
use std::io;
use structure_parser::read_file;
use structure_writer::write_file;

fn main(rt: HostRuntime) -> io::Result<()> {
    for line in rt.lines(rt.alloc()) {
        let line = line?;
        let row = line.as_bytes();
        if row.is_empty() || row[0] == b'/' {
            continue;
        }
        match answer(rt.alloc(), row) {
            Ok(text) => println!(rt; "{}", shown(text.as_slice()))?,
            Err(_) => println!(rt; "no memory")?,
        }
    }
    Ok(())
}

/// The answer to a row.
fn answer(alloc: Global, row: &[u8]) -> Result<Vec<u8>, AllocError> {
    let file = replaced(alloc, row, b';', b'\n')?;
    let text = text_of(alloc, file.as_slice())?;
    let again = text_of(alloc, text.as_slice())?;
    let mut told = replaced(alloc, text.as_slice(), b'\n', b';')?;
    if text.as_slice() != again.as_slice() {
        told.extend_from_slice(b", then ".as_slice())?;
        told.extend_from_slice(replaced(alloc, again.as_slice(), b'\n', b';')?.as_slice())?;
    }
    Ok(told)
}

/// The canonical text of what the file is read as.
fn text_of(alloc: Global, file: &[u8]) -> Result<Vec<u8>, AllocError> {
    match read_file(alloc, file) {
        Ok(c) => write_file(alloc, &c),
        Err(_) => Vec::from_slice(alloc, b"refused".as_slice()),
    }
}

/// The bytes, with one byte in the place of another.
fn replaced(alloc: Global, bytes: &[u8], old: u8, new: u8) -> Result<Vec<u8>, AllocError> {
    let mut text = Vec::with_capacity(alloc, bytes.len())?;
    for byte in bytes {
        text.push(if *byte == old { new } else { *byte })?;
    }
    Ok(text)
}

/// Bytes as text.
fn shown<'a>(bytes: &'a [u8]) -> &'a str {
    match str::from_utf8(bytes) {
        Ok(text) => text,
        Err(_) => "?",
    }
}
