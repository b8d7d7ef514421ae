//! Whether each state is like the first of its block: the second rule.
ghost use Rattle.std.specs.Prelude.{◌≡◌, ℕ, List, ◌≤◌, ◌<◌, ◌^◌, length, slice_index, EachIndex, IfOk, IfSome, IsNone, IsTrue};
ghost use Rattle.std.specs.List.{All, AllZip};
ghost use Rattle.functor_terms.specs.Terms.{IsTerm};
ghost use Rattle.typing.specs.declared.value.Value.{Value as The};
ghost use Rattle.typing.specs.NormalForms.{IsRelabelledAt};
ghost use Rattle.answer_checker.specs.Rules.{AreLikeFirsts, AreLikeBefore, first_beside};
ghost use Rattle.answer_checker.specs.Steps.{AreFirstsOf, IsDifferent};

use crate::verdict::Reason;
use functor_terms::Term;
use std::alloc::{AllocError, Global};
use std::cmp::Ordering;
use typing::{Coalgebra, Value, compare, relabel};

/// For each state the first state with its number. The numbers are below a count.
fn firsts_of(alloc: Global, numbers: &[u32], count: usize) -> Result<Vec<u32>, AllocError>
    requires few { length numbers.now < 2 ^ 32 }
    requires below { EachIndex numbers.now (λ i. slice_index numbers.now i < count) }
    ensures { IfOk result (λ firsts. AreFirstsOf numbers.now firsts.items) }
{
    let mut seen: Vec<Option<u32>> = vec![in alloc; None; count]?;
    let mut firsts = Vec::with_capacity(alloc, numbers.len())?;
    let mut y = 0;
    for number in numbers {
        let first = seen[*number as usize].unwrap_or(y);
        seen[*number as usize] = Some(first);
        firsts.push(first)?;
        y += 1;
    }
    Ok(firsts)
}

/// The normal form of each structure, with the numbers for its states.
fn normal_forms(alloc: Global, c: &Coalgebra, numbers: &[u32]) -> Result<Vec<Value>, AllocError>
    requires one_each { length numbers.now ≡ length c.now.names }
    ensures { IfOk result (λ forms.
        AllZip (IsRelabelledAt c.now.term numbers.now 0) c.now.values.items forms.items) }
{
    let mut forms = Vec::with_capacity(alloc, c.values.len())?;
    for value in c.values.as_slice() {
        forms.push(relabel(alloc, &c.term, value, numbers)?)?;
    }
    Ok(forms)
}

/// The first state whose form is not that of the first state of its block.
fn first_apart(term: &Term, forms: &[Value], firsts: &[u32]) -> Option<Reason>
    requires few { length firsts.now < 2 ^ 32 }
    requires one_each { length forms.now ≡ length firsts.now }
    requires no_later { EachIndex firsts.now (λ y. slice_index firsts.now y ≤ y) }
    ensures like { IsNone result → (values : List The) (numbers : List ℕ) →
        AllZip (IsRelabelledAt term.now numbers 0) values forms.now →
        AreFirstsOf numbers firsts.now → AreLikeFirsts term.now values numbers }
    ensures reason { IfSome result (λ reason. (values : List The) (numbers : List ℕ) →
        AllZip (IsRelabelledAt term.now numbers 0) values forms.now →
        AreFirstsOf numbers firsts.now → IsDifferent term.now values numbers reason) }
{
    term.is_term();
    for y in 0..firsts.len() {
        let x = firsts[y];
        match compare(term, 0, &forms[x as usize], &forms[y]) {
            Ordering::Equal => {}
            _ => return Some(Reason::Unstable(x, y as u32)),
        }
    }
    None
}

/// Why a state is not like the first state of its block, where states with one number are a block.
/// The numbers are below a count.
pub(crate) fn first_different(
    alloc: Global,
    c: &Coalgebra,
    numbers: &[u32],
    count: usize,
) -> Result<Option<Reason>, AllocError>
    requires one_each { length numbers.now ≡ length c.now.names }
    requires below { EachIndex numbers.now (λ i. slice_index numbers.now i < count) }
    ensures like { IfOk result (λ found. IsNone found →
        AreLikeFirsts c.now.term c.now.values.items numbers.now) }
    ensures reason { IfOk result (λ found. IfSome found (
        IsDifferent c.now.term c.now.values.items numbers.now)) }
{
    let firsts = firsts_of(alloc, numbers, count)?;
    let forms = normal_forms(alloc, c, numbers)?;
    Ok(first_apart(&c.term, forms.as_slice(), firsts.as_slice()))
}
