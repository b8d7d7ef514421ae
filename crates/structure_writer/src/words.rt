//! Names, labels and numbers, put last in a text.
ghost use Rattle.std.specs.Prelude.{◌≡◌, ◌++◌, ◌==◌, [], OnOk, decimal, if◌then◌else◌};
ghost use Rattle.std.specs.Option.{option_map_or};
ghost use Rattle.structure_writer.specs.Text.{word_at, label_word};

use functor_terms::{LabelSet, Labels};
use itoa::Buffer;
use std::alloc::AllocError;
use typing::Names;

/// Puts a separator last, but not before the first of a list.
pub(crate) fn push_before(
    text: &mut Vec<u8>,
    place: usize,
    separator: &[u8],
) -> Result<(), AllocError>
    ensures { OnOk result (text.new.items
        ≡ text.old.items ++ (if place == 0 then [] else separator.now)) }
{
    if place == 0 {
        return Ok(());
    }
    text.extend_from_slice(separator)
}

/// Puts a number last.
pub(crate) fn push_number(text: &mut Vec<u8>, n: u64) -> Result<(), AllocError>
    ensures { OnOk result (text.new.items ≡ text.old.items ++ decimal n) }
{
    let mut digits = Buffer::new();
    text.extend_from_slice(digits.format(n).as_bytes())
}

/// Puts the name of a state last, if it has one.
pub(crate) fn push_name(
    text: &mut Vec<u8>,
    names: &Names,
    state: Option<u32>,
) -> Result<(), AllocError>
    ensures { OnOk result (text.new.items
        ≡ text.old.items ++ option_map_or (word_at names.now) state []) }
{
    match state {
        Some(i) if i < names.len() => text.extend_from_slice(names.name(i)),
        _ => Ok(()),
    }
}

/// Puts a listed word last, if there is one with this number.
fn push_word(text: &mut Vec<u8>, words: &Labels, k: u64) -> Result<(), AllocError>
    ensures { OnOk result (text.new.items ≡ text.old.items ++ word_at words.now k) }
{
    if k < words.len() as u64 {
        text.extend_from_slice(words.word(k as u32))
    } else {
        Ok(())
    }
}

/// Puts the text of a label last.
pub(crate) fn push_label(text: &mut Vec<u8>, labels: &LabelSet, k: u64) -> Result<(), AllocError>
    ensures { OnOk result (text.new.items ≡ text.old.items ++ label_word labels.now k) }
{
    match labels {
        LabelSet::Listed(words) => push_word(text, words, k),
        LabelSet::Below(_) => push_number(text, k),
    }
}
