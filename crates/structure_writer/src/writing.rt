//! The canonical text of a coalgebra.
ghost use Rattle.std.specs.Prelude.{◌≡◌, ◌≤◌, ◌<◌, ◌++◌, length, IfOk, OnOk};
ghost use Rattle.typing.specs.Contents.{content_of};
ghost use Rattle.structure_writer.specs.Text.{text_at, state_line, canonical};
ghost use Rattle.structure_writer.specs.Spelled.{Spells};

use crate::values::push_value;
use functor_terms::{Term, term_text};
use std::alloc::{AllocError, Global};
use typing::{Coalgebra, Names, Value};

/// The canonical text of a coalgebra: its functor, and for each state in order its name and its
/// structure, each on a line of its own. The error is want of memory.
pub fn write_file(alloc: Global, c: &Coalgebra) -> Result<Vec<u8>, AllocError>
    ensures canonical { IfOk result (λ text. text.items ≡ canonical (content_of c.now)) }
    ensures spells { IfOk result (λ text. Spells text.items (content_of c.now)) }
{
    c.term.is_term();
    c.names.are_names();
    let mut text = term_text(alloc, &c.term)?;
    text.push(b'\n')?;
    for i in 0..c.names.len() {
        let name = c.names.name(i);
        push_line(
            &mut text,
            &c.term,
            &c.names,
            c.denominator,
            name,
            &c.values[i as usize],
        )?;
    }
    Ok(text)
}

/// Puts the line of a state last.
fn push_line(
    text: &mut Vec<u8>,
    term: &Term,
    names: &Names,
    l: u64,
    name: &[u8],
    value: &Value,
) -> Result<(), AllocError>
    requires positive { 1 ≤ l }
    ensures { OnOk result (text.new.items
        ≡ text.old.items ++ state_line name.now (text_at l names.now term.now 0 value.now)) }
{
    term.is_term();
    text.extend_from_slice(name)?;
    text.extend_from_slice(b": ".as_slice())?;
    push_value(text, term, names, l, 0, value)?;
    text.push(b'\n')?;
    Ok(())
}
