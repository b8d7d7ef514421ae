// The interface of weights in a group.
ghost use Rattle.std.specs.Prelude.{◌≡◌, ◌+◌, ◌<◌, ◌≤◌, ◌^◌, ◌*◌, length, ⊤};
ghost use Rattle.weights.specs.Sums.{size_of};
ghost use Rattle.weights.specs.Fractions.{lowest_terms};
ghost use Rattle.monoid_iface.specs.Groups.{few_weights, total, value_of_group};
ghost use Rattle.monoid_iface.specs.Groups.{toward_of_group, agree_of_groups};
ghost use Rattle.monoid_iface.specs.GroupLaws.{group_laws};

use crate::weight::{GroupShape, GroupWeight};
use iface::{Iface, Update};
use modalities::Three;
use outside::Steps;
use std::alloc::{AllocError, Global};
use std::sync::ledger::Ledger;
use weights::{Group, Ratio, ratio_of};

/// The interface of weights in a group. The absolute weights of a structure sum to at most 2^106.
pub struct Groups<G> {
    group: G,
    denominator: u64,
    ghost positive: { 1 ≤ denominator },
}

impl<G: Copy> Clone for Groups<G> {
    ghost is_clone = { λ x y. y ≡ x };

    ghost is_infallible = { λ _. ⊤ };

    fn clone(&self) -> Result<Groups<G>, AllocError> {
        Ok(*self)
    }
}

impl<G: Copy> Copy for Groups<G> {}

impl<G: Group> Groups<G> {
    /// The interface. Values are written over this denominator, which is at least 1.
    pub fn new(group: G, denominator: u64) -> Groups<G>
        requires positive { 1 ≤ denominator }
        ensures group { result.group ≡ group }
        ensures denominator { result.denominator ≡ denominator }
    {
        Groups { group, denominator }
    }
}

/// The number of a weight over a denominator, in lowest terms.
fn fraction<G: Group>(group: &G, weight: &G::Elem, denominator: u64) -> Ratio
    requires positive { 1 ≤ denominator }
    ensures value { result ≡ lowest_terms (G.number group.now weight.now) denominator }
{
    ratio_of(group.number(weight), denominator)
}

/// The sum of all labels, each counted as one step.
fn total_of<G: Group, L: Ledger>(group: &G, labels: &[G::Elem], steps: &mut Steps<L>) -> G::Elem
    requires small { 3 * size_of (G.number group.now) labels.now ≤ 2 ^ 126 }
    requires few { length labels.now < 2 ^ 26 }
    requires steps_fit { steps.old ≤ 2 ^ 62 }
    ensures sum { result ≡ total (G.zero group.now) (G.add group.now) labels.now }
    ensures counted { steps.new ≡ steps.old + length labels.now }
{
    let mut sum = group.zero();
    for i in 0..labels.len() {
        steps.tick();
        sum = group.add(&sum, &labels[i]);
    }
    sum
}

impl<G: Group> Iface for Groups<G> {
    type Shape = GroupShape;

    type Label = G::Elem;

    type Weight = GroupWeight<G::Elem>;

    ghost node = { λ _ shape. shape.node };

    ghost kin = { λ _ _ _. Unit {0} };

    ghost fits = { λ g _ labels. few_weights (G.number g.group) labels };

    ghost value = { λ g _ labels trits. value_of_group
        (G.number g.group) (G.zero g.group) (G.add g.group) g.denominator labels trits };

    ghost toward = { λ g _ labels marks. toward_of_group
        (G.zero g.group) (G.add g.group) labels marks };

    ghost agree = { λ g. agree_of_groups (G.zero g.group) (G.add g.group) };

    fn node(&self, shape: &GroupShape) -> u32 {
        shape.node
    }

    fn init<L: Ledger>(
        &self,
        alloc: Global,
        _shape: &GroupShape,
        labels: &[G::Elem],
        steps: &mut Steps<L>,
    ) -> Result<(GroupWeight<G::Elem>, Three), AllocError> {
        let inside = total_of(&self.group, labels, steps);
        let outside = self.group.zero();
        let all = fraction(&self.group, &inside, self.denominator);
        let none = fraction(&self.group, &outside, self.denominator);
        let three = Three::of_sums(alloc, none, none, all)?;
        Ok((GroupWeight { outside, inside }, three))
    }

    fn update<L: Ledger>(
        &self,
        alloc: Global,
        moved: &[G::Elem],
        weight: &mut GroupWeight<G::Elem>,
        steps: &mut Steps<L>,
    ) -> Result<Update<GroupWeight<G::Elem>>, AllocError> {
        let GroupWeight { outside, inside } = *weight;
        let part = total_of(&self.group, moved, steps);
        let rest = self.group.sub(&inside, &part);
        let other = self.group.add(&outside, &part);
        let others = self.group.add(&outside, &rest);
        let zero = self.group.zero();
        let away = fraction(&self.group, &outside, self.denominator);
        let stays = fraction(&self.group, &rest, self.denominator);
        let goes = fraction(&self.group, &part, self.denominator);
        let before = fraction(&self.group, &inside, self.denominator);
        let none = fraction(&self.group, &zero, self.denominator);
        let three = Three::of_sums(alloc, away, stays, goes)?;
        let void = Three::of_sums(alloc, away, before, none)?;
        *weight = GroupWeight {
            outside: other,
            inside: rest,
        };
        Ok(Update {
            part: GroupWeight {
                outside: others,
                inside: part,
            },
            three,
            void,
        })
    }

    ghost laws = { λ g. group_laws (G.number g.group) (G.zero g.group) (G.add g.group)
        (G.laws g.group) g.denominator g.positive };
}
