//! What a file is read as, in words.
use crate::value_text::push_value;
use std::alloc::{AllocError, Global};
use structure_parser::{FileFault, read_file};
use typing::Coalgebra;

/// The coalgebra of a file, or its first fault.
pub fn told(alloc: Global, bytes: &[u8]) -> Result<String, AllocError> {
    match read_file(alloc, bytes) {
        Ok(c) => coalgebra_text(alloc, &c),
        Err(fault) => fault_text(alloc, &fault),
    }
}

fn fault_text(alloc: Global, fault: &FileFault) -> Result<String, AllocError> {
    match fault {
        FileFault::TooLong => format!(in alloc; "too long"),
        FileFault::Grammar { line } => format!(in alloc; "{line}: grammar"),
        FileFault::TypeFault { line, kind } => format!(in alloc; "{line}: {kind:?}"),
        FileFault::WeightBound { line } => format!(in alloc; "{line}: bound"),
        FileFault::SumFault { line } => format!(in alloc; "{line}: sum"),
        FileFault::NoMemory => format!(in alloc; "no memory"),
    }
}

/// The common denominator, and each state with its value.
fn coalgebra_text(alloc: Global, c: &Coalgebra) -> Result<String, AllocError> {
    let mut text = format!(in alloc; "{}", c.denominator)?;
    for (i, value) in c.values.iter().enumerate() {
        text.push_str("; ")?;
        text.push_str(word_text(c.names.name(i as u32)))?;
        text.push_str(": ")?;
        push_value(alloc, &mut text, value)?;
    }
    Ok(text)
}

/// A name as text.
fn word_text<'a>(name: &'a [u8]) -> &'a str {
    match str::from_utf8(name) {
        Ok(text) => text,
        Err(_) => "?",
    }
}
