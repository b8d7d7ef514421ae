//! What the prefixes of a file are read as.
use std::alloc::{AllocError, Global};
use structure_parser::{FileFault, read_file};
use typing::TypeKind;

/// The kinds of answers that some prefix of the file has.
pub fn kinds_told(alloc: Global, bytes: &[u8]) -> Result<String, AllocError> {
    let mut accepted = false;
    let mut grammar = false;
    let mut unknown = false;
    let mut other = false;
    for n in 0..bytes.len() + 1 {
        let (prefix, _) = bytes.split_at(n);
        match read_file(alloc, prefix) {
            Ok(_) => accepted = true,
            Err(FileFault::Grammar { .. }) => grammar = true,
            Err(FileFault::TypeFault { kind, .. }) => {
                unknown = unknown | (kind == TypeKind::UnknownState);
                other = other | (kind != TypeKind::UnknownState);
            }
            Err(_) => other = true,
        }
    }
    format!(in alloc; "accepted {accepted}, grammar {grammar}, unknown {unknown}, other {other}")
}
