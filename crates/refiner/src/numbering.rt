//! Lists that give each of some things a number.

ghost use Rattle.std.specs.Prelude.{◌≡◌, ◌≢◌, ◌<◌, ◌⊎◌, ℕ, length, slice_index, All, AllPairs};
ghost use Rattle.refinable_partition.specs.Layout.{AreMoved as HaveLeft};

/// Gives some of them, each listed once, a new number.
pub(crate) fn renumber(of: &mut Vec<u32>, some: &[u32], new: u32)
    requires in_range { All (λ x. x < length of.old.items) some.now }
    requires once { AllPairs (λ x y. x ≢ y) some.now }
    ensures len { length of.new.items ≡ length of.old.items }
    ensures moved { All (λ x. slice_index of.new.items x ≡ new) some.now }
    ensures others { (x : ℕ) → All (λ y. y ≢ x) some.now →
        slice_index of.new.items x ≡ slice_index of.old.items x }
    ensures either { (x : ℕ) → (slice_index of.new.items x ≡ new)
        ⊎ (slice_index of.new.items x ≡ slice_index of.old.items x) }
    ensures counted { (old : ℕ) → old ≢ new →
        All (λ x. slice_index of.old.items x ≡ old) some.now →
        HaveLeft old new (length some.now) of.old.items of.new.items }
{
    for x in some {
        of[*x as usize] = new;
    }
}
