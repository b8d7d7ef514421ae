//! The quotient of a coalgebra.
ghost use Rattle.std.specs.Prelude.{◌≡◌, length, IsTrue, IfOk};
ghost use Rattle.std.specs.List.{AllZip};
ghost use Rattle.typing.specs.NormalForms.{IsRelabelledAt};
ghost use Rattle.typing.specs.Stable.{IsStable};
ghost use Rattle.quotient_writer.specs.Quotient.{is_numbered, picked, IsQuotient};

use std::alloc::{AllocError, Global};
use typing::{Coalgebra, Names, relabel};

/// One state for each class, in the order of the classes, with the name of the class's first state,
/// and with that state's structure once states are replaced by their classes, in normal form. The
/// error is want of memory.
pub fn quotient<'a>(
    alloc: Global,
    c: &Coalgebra<'a>,
    labels: &[u32],
) -> Result<Coalgebra<'a>, AllocError>
    requires one_each { length labels.now ≡ length c.now.names }
    requires numbered { IsTrue (is_numbered labels.now) }
    requires stable { IsStable c.now.term c.now.values.items labels.now }
    ensures term { IfOk result (λ d. d.term ≡ c.now.term) }
    ensures denominator { IfOk result (λ d. d.denominator ≡ c.now.denominator) }
    ensures quotient { IfOk result (λ d. IsQuotient c.now.term c.now.names c.now.values.items
        labels.now d.names d.values.items) }
    ensures names { IfOk result (λ d. d.names ≡ picked labels.now c.now.names) }
    ensures values { IfOk result (λ d. AllZip (IsRelabelledAt c.now.term labels.now 0)
        (picked labels.now c.now.values.items) d.values.items) }
{
    c.names.are_names();
    let mut names = Names::new(alloc);
    let mut values = Vec::new(alloc);
    let states = c.names.len();
    for i in 0..states {
        if labels[i as usize] == names.len() {
            names.add(c.names.name(i))?;
            values.push(relabel(alloc, &c.term, &c.values[i as usize], labels)?)?;
        }
    }
    Ok(Coalgebra {
        term: c.term.try_copy(alloc)?,
        names,
        denominator: c.denominator,
        values,
    })
}
