// The order of values, which agrees with equality.
ghost use Rattle.std.specs.Prelude.{◌≡◌, ◌↔◌, IsTrue, refl};
ghost use Rattle.std.specs.Ordering.{as_partial_cmp, eq_by_cmp};
ghost use Rattle.modalities.specs.declared.three.Three.{Three};
ghost use Rattle.modalities.specs.Order.{kind_of, number_of, trits_of, sums_of};
ghost use Rattle.modalities.specs.Order.{ratio_cmp, sums_cmp, three_cmp};
ghost use Rattle.modalities.specs.OrderLaws.{three_total, three_equivalence, three_partial_order};

use crate::sums::Sums;
use crate::three::Three;
use std::cmp::Ordering;
use weights::Ratio;

impl PartialEq for Three {
    ghost eq = { eq_by_cmp three_cmp };

    ghost laws = { three_equivalence.0 };

    fn eq(&self, other: &Three) -> bool
        ensures tested { result ≡ eq_by_cmp three_cmp self.now other.now }
        ensures same { IsTrue result ↔ (self.now ≡ other.now) }
    {
        self.cmp(other) == Ordering::Equal
    }
}

impl Eq for Three {
    ghost laws = { three_equivalence.1 };
}

impl PartialOrd for Three {
    ghost partial_cmp = { as_partial_cmp three_cmp };

    ghost laws = { three_partial_order };

    fn partial_cmp(&self, other: &Three) -> Option<Ordering> {
        Some(self.cmp(other))
    }
}

impl Ord for Three {
    ghost cmp = { three_cmp };

    ghost total = { three_total };

    ghost matches_partial_cmp = { λ a b. refl };

    ghost matches_eq = { λ a b. refl };

    fn cmp(&self, other: &Three) -> Ordering
        ensures ordered { result ≡ three_cmp self.now other.now }
        ensures equal_exactly { result ≡ Ordering.Equal ↔ (self.now ≡ other.now) }
    {
        compared(self, other)
    }
}

/// Compares kinds, then numbers, then trits, then fractions.
fn compared(a: &Three, b: &Three) -> Ordering
    ensures { result ≡ three_cmp a.now b.now }
{
    let fractions = compare_sums(&sums_of(a), &sums_of(b));
    let trits = trits_of(a).cmp(trits_of(b)).then(fractions);
    let numbers = number_of(a).cmp(&number_of(b)).then(trits);
    kind_of(a).cmp(&kind_of(b)).then(numbers)
}

/// The number of the kind of a value.
fn kind_of(value: &Three) -> u8
    ensures { result ≡ kind_of value.now }
{
    match value {
        Three::Label(_) => 0,
        Three::Trit(_) => 1,
        Three::Trits(_) => 2,
        Three::Tagged(_, _) => 3,
        Three::Members(_) => 4,
        Three::Triple(_) => 5,
    }
}

/// The number in a value, and 0 where there is none.
fn number_of(value: &Three) -> u64
    ensures { result ≡ number_of value.now }
{
    match value {
        Three::Label(n) => *n,
        Three::Tagged(i, _) => *i as u64,
        Three::Members(bits) => *bits as u64,
        _ => 0,
    }
}

/// The trits in a value.
fn trits_of(value: &Three) -> &[u8]
    ensures { result.now ≡ trits_of value.now }
{
    match value {
        Three::Trit(t) => std::slice::from_ref(t),
        Three::Trits(trits) => trits.as_slice(),
        Three::Tagged(_, t) => std::slice::from_ref(t),
        _ => &[],
    }
}

/// The sums in a value, and 0 where there are none.
fn sums_of(value: &Three) -> Sums
    ensures { result ≡ sums_of value.now }
{
    let none = Ratio { p: 0, q: 1 };
    match value {
        Three::Triple(sums) => *sums.get(),
        _ => Sums {
            at_zero: none,
            at_one: none,
            at_two: none,
        },
    }
}

/// Compares the sums of 0, then those of 1, and then those of 2.
fn compare_sums(a: &Sums, b: &Sums) -> Ordering
    ensures { result ≡ sums_cmp a.now b.now }
{
    let later = compare_ratios(&a.at_one, &b.at_one).then(compare_ratios(&a.at_two, &b.at_two));
    compare_ratios(&a.at_zero, &b.at_zero).then(later)
}

/// Compares numerators, and then denominators.
fn compare_ratios(a: &Ratio, b: &Ratio) -> Ordering
    ensures { result ≡ ratio_cmp a.now b.now }
{
    a.p.cmp(&b.p).then(a.q.cmp(&b.q))
}
