//! Values compared, those of the cheap kinds first.

ghost use Rattle.std.specs.Prelude.{◌≡◌, ◌↔◌, IsTrue};
ghost use Rattle.modalities.specs.Order.{three_cmp};

use modalities::Three;
use std::cmp::Ordering;

/// Whether two values are one.
pub(crate) fn is_same(a: &Three, b: &Three) -> bool
    ensures { IsTrue result ↔ (a.now ≡ b.now) }
{
    match (a, b) {
        (Three::Label(m), Three::Label(n)) => m == n,
        (Three::Members(m), Three::Members(n)) => m == n,
        (Three::Tagged(i, t), Three::Tagged(j, u)) => i == j && t == u,
        (Three::Trits(m), Three::Trits(n)) => m.as_slice() == n.as_slice(),
        _ => *a == *b,
    }
}

/// How two values compare.
pub(crate) fn compare(a: &Three, b: &Three) -> Ordering
    ensures { result ≡ three_cmp a.now b.now }
{
    match (a, b) {
        (Three::Label(m), Three::Label(n)) => m.cmp(n),
        (Three::Members(m), Three::Members(n)) => m.cmp(n),
        (Three::Tagged(i, t), Three::Tagged(j, u)) => i.cmp(j).then(t.cmp(u)),
        (Three::Trits(m), Three::Trits(n)) => m.as_slice().cmp(n.as_slice()),
        _ => a.cmp(b),
    }
}
