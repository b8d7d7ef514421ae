// One of two, and the labels of each side.
ghost use Rattle.std.specs.Prelude.{◌≡◌, IfOk};
ghost use Rattle.iface.specs.Sides.{lefts, rights};

use std::alloc::{AllocError, Global};

/// A value on the left or on the right.
#[derive(Clone, Copy, Debug, Drop)]
pub enum Side<A, B> {
    Left(A),
    Right(B),
}

/// The labels on the left, in order.
pub(crate) fn left_labels<A: Copy, B: Copy>(
    alloc: Global,
    labels: &[Side<A, B>],
) -> Result<Vec<A>, AllocError>
    ensures { IfOk result (λ v. v.items ≡ lefts labels.now) }
{
    let mut found = Vec::with_capacity(alloc, labels.len())?;
    for label in labels {
        match label {
            Side::Left(a) => found.push(*a)?,
            Side::Right(_) => {}
        }
    }
    Ok(found)
}

/// The labels on the right, in order.
pub(crate) fn right_labels<A: Copy, B: Copy>(
    alloc: Global,
    labels: &[Side<A, B>],
) -> Result<Vec<B>, AllocError>
    ensures { IfOk result (λ v. v.items ≡ rights labels.now) }
{
    let mut found = Vec::with_capacity(alloc, labels.len())?;
    for label in labels {
        match label {
            Side::Left(_) => {}
            Side::Right(b) => found.push(*b)?,
        }
    }
    Ok(found)
}
