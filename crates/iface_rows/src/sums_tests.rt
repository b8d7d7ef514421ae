//! The rows were worked out by hand. Each structure has weights that cancel: 2 and -2 lie in the
//! first splitter, and so outside of the second coarse block; 3 and -3 lie inside of it.

use crate::two_rounds;
use distribution_iface::{DistShape, Dists};
use layers::{Kind, LayerShape, LayerWeight, Layers};
use modalities::Three;
use monoid_iface::{GroupShape, Groups};
use std::alloc::{AllocError, Global};
use std::marker::Brand;
use std::sync::ledger::Blank;
use std::test::Fail;
use weights::{Count, Ratio, Scaled, Whole};

/// The value with these sums, each a numerator and a denominator.
fn sums(
    alloc: Global,
    zero: (i128, u64),
    one: (i128, u64),
    two: (i128, u64),
) -> Result<Three, AllocError> {
    let ratio = |(p, q)| Ratio { p, q };
    Three::of_sums(alloc, ratio(zero), ratio(one), ratio(two))
}

#[test]
fn whole_weights_cancel_inside_and_outside(rt: HostRuntime) -> Result<(), Fail> {
    let alloc = rt.alloc();
    let groups = Groups::new(Whole, 1);
    let shape = GroupShape { node: 0 };
    let labels = [4, 2, -2, 3, -3, 1];
    let blank = Blank::new(1);
    let row = two_rounds::<_, Brand>(alloc, &groups, &shape, &labels, &[2, -2], &[3], blank)?;
    assert_eq!(rt; (row.whole.outside, row.whole.inside), (0, 5));
    assert_eq!(rt; row.three, sums(alloc, (0, 1), (0, 1), (5, 1))?);
    assert_eq!(rt; row.first.three, sums(alloc, (0, 1), (5, 1), (0, 1))?);
    assert_eq!(rt; row.second.three, sums(alloc, (0, 1), (2, 1), (3, 1))?);
    assert_eq!(rt; row.second.void, sums(alloc, (0, 1), (5, 1), (0, 1))?);
    assert_eq!(rt; (row.second.part.outside, row.second.part.inside), (2, 3));
    assert_eq!(rt; (row.rest.outside, row.rest.inside), (3, 2));
    Ok(())
}

#[test]
fn fractions_stand_in_lowest_terms(rt: HostRuntime) -> Result<(), Fail> {
    let alloc = rt.alloc();
    let groups = Groups::new(Scaled { denominator: 6 }, 6);
    let shape = GroupShape { node: 0 };
    let labels = [4, 2, -2, 3, -3, 1];
    let blank = Blank::new(1);
    let row = two_rounds::<_, Brand>(alloc, &groups, &shape, &labels, &[2, -2], &[3], blank)?;
    assert_eq!(rt; row.three, sums(alloc, (0, 1), (0, 1), (5, 6))?);
    assert_eq!(rt; row.second.three, sums(alloc, (0, 1), (1, 3), (1, 2))?);
    assert_eq!(rt; row.second.void, sums(alloc, (0, 1), (5, 6), (0, 1))?);
    Ok(())
}

#[test]
fn counts_of_a_bag_move(rt: HostRuntime) -> Result<(), Fail> {
    let alloc = rt.alloc();
    let groups = Groups::new(Count, 1);
    let shape = GroupShape { node: 0 };
    let blank = Blank::new(1);
    let row = two_rounds::<_, Brand>(alloc, &groups, &shape, &[1, 2, 3], &[2], &[3], blank)?;
    assert_eq!(rt; row.three, sums(alloc, (0, 1), (0, 1), (6, 1))?);
    assert_eq!(rt; row.second.three, sums(alloc, (2, 1), (1, 1), (3, 1))?);
    assert_eq!(rt; row.second.void, sums(alloc, (2, 1), (4, 1), (0, 1))?);
    Ok(())
}

#[test]
fn a_distribution_keeps_what_lies_outside(rt: HostRuntime) -> Result<(), Fail> {
    let alloc = rt.alloc();
    let dists = Dists::new(6);
    let shape = DistShape { node: 0 };
    let blank = Blank::new(1);
    let row = two_rounds::<_, Brand>(alloc, &dists, &shape, &[1, 2, 3], &[2], &[3], blank)?;
    assert_eq!(rt; row.three, sums(alloc, (0, 1), (0, 1), (1, 1))?);
    assert_eq!(rt; row.first.three, sums(alloc, (0, 1), (2, 3), (1, 3))?);
    assert_eq!(rt; row.second.three, sums(alloc, (1, 3), (1, 6), (1, 2))?);
    assert_eq!(rt; row.second.void, sums(alloc, (1, 3), (2, 3), (0, 1))?);
    Ok(())
}

#[test]
fn wide_sums_are_kept_narrow_again(rt: HostRuntime) -> Result<(), Fail> {
    let alloc = rt.alloc();
    let shapes = vec![in alloc;
        LayerShape {
            node: 3,
            kind: Kind::Scaled
        },
    ]?;
    let large = 1267650600228229401496703205376;
    let weights = vec![in alloc; large, -large, 3]?;
    let layers = Layers::new(shapes, weights, 6);
    let blank = Blank::new(1);
    let row = two_rounds::<_, Brand>(alloc, &layers, &0, &[0, 1, 2], &[0], &[1], blank)?;
    assert!(rt; matches!(row.whole, LayerWeight::Scaled(w) if w.outside == 0 && w.inside == 3));
    assert_eq!(rt; row.three, sums(alloc, (0, 1), (0, 1), (1, 2))?);
    assert!(rt; matches!(row.first.part, LayerWeight::Wide(_)));
    assert!(rt; matches!(row.rest, LayerWeight::Scaled(w) if w.outside == 0 && w.inside == 3));
    Ok(())
}
