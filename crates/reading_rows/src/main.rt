//! Files and what they are read as. Each line of the input is a file, in which `\n` stands for a
//! line feed, `\r` for a carriage return and `\t` for a tab. The answer is its common denominator
//! and its states with their values, or its first fault with its line.
//!
//! Behind a file may stand `|` and a number: then it is cut, or filled with `#`, to so many bytes.
//! With `|each` every prefix of it is read, and the kinds of the answers are told.
#![tactic(auto)]

mod prefixes;
mod told;
mod value_text;

use prefixes::kinds_told;
use std::alloc::{AllocError, Global};
use std::io;
use told::told;
use weights::read_numeral;

fn main(rt: HostRuntime) -> io::Result<()> {
    for line in rt.lines(rt.alloc()) {
        let line = line?;
        let row = line.as_bytes();
        if row.is_empty() || row[0] == b'/' {
            continue;
        }
        match answer(rt.alloc(), row) {
            Ok(text) => println!(rt; "{text}")?,
            Err(_) => println!(rt; "no memory")?,
        }
    }
    Ok(())
}

/// The answer to a row.
fn answer(alloc: Global, row: &[u8]) -> Result<String, AllocError> {
    let mut fields = row.split(|byte| *byte == b'|');
    let file = file_of(alloc, fields.next().unwrap_or(&[]))?;
    let Some(asked) = fields.next() else {
        return told(alloc, file.as_slice());
    };
    if asked == b"each".as_slice() {
        return kinds_told(alloc, file.as_slice());
    }
    let sized = with_size(file, size_of(asked))?;
    told(alloc, sized.as_slice())
}

/// The bytes that a row writes.
fn file_of(alloc: Global, text: &[u8]) -> Result<Vec<u8>, AllocError> {
    let mut bytes = Vec::with_capacity(alloc, text.len())?;
    let mut escaped = false;
    for byte in text {
        if escaped {
            bytes.push(escape(*byte))?;
            escaped = false;
        } else if *byte == b'\\' {
            escaped = true;
        } else {
            bytes.push(*byte)?;
        }
    }
    Ok(bytes)
}

/// The byte that an escape writes.
fn escape(byte: u8) -> u8 {
    match byte {
        b'n' => b'\n',
        b'r' => b'\r',
        b't' => b'\t',
        _ => byte,
    }
}

/// The number that is written, or 0.
fn size_of(text: &[u8]) -> usize {
    match read_numeral(text) {
        Ok(n) => n.p.unsigned_abs() as usize,
        Err(_) => 0,
    }
}

/// The file cut, or filled with `#`, to so many bytes.
fn with_size(file: Vec<u8>, size: usize) -> Result<Vec<u8>, AllocError> {
    let mut bytes = file;
    bytes.resize(size, b'#')?;
    Ok(bytes)
}
