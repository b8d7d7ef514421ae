//! The rows were worked out by hand, from what a set, a pair and a summand are.

ghost use Rattle.std.specs.Prelude.{◌≡◌};

use crate::first_round;
use iface::{Either2, Side};
use modalities::{Three, TritList};
use polynomial_iface::{Form, PolyShape, Polys};
use powerset_iface::{SetShape, SetWeight, Sets};
use std::alloc::{AllocError, Global};
use std::marker::Brand;
use std::sync::ledger::Blank;
use std::test::Fail;

fn trits(alloc: Global, items: &[u8]) -> Result<Three, AllocError> {
    let items = Vec::from_slice(alloc, items)?;
    Ok(Three::Trits(TritList::from_vec(items)))
}

/// A weight towards a block that has so many of the elements.
fn elements(outside: bool, inside: u32) -> SetWeight {
    SetWeight { outside, inside }
}

#[test]
fn one_of_three_elements_moves(rt: HostRuntime) -> Result<(), Fail> {
    let alloc = rt.alloc();
    let set = SetShape { node: 0 };
    let blank = Blank::new(1);
    let row = first_round::<Sets, Brand>(alloc, &Sets, &set, &[(), (), ()], &[()], blank)?;
    assert_eq!(rt; row.whole, elements(false, 3));
    assert_eq!(rt; row.three, Three::Members(0b100));
    assert_eq!(rt; row.rest, elements(true, 2));
    assert_eq!(rt; row.update.part, elements(true, 1));
    assert_eq!(rt; row.update.three, Three::Members(0b110));
    assert_eq!(rt; row.update.void, Three::Members(0b010));
    Ok(())
}

#[test]
fn an_empty_set_has_the_empty_value(rt: HostRuntime) -> Result<(), Fail> {
    let alloc = rt.alloc();
    let set = SetShape { node: 0 };
    let row = first_round::<Sets, Brand>(alloc, &Sets, &set, &[], &[], Blank::new(1))?;
    assert_eq!(rt; row.whole, elements(false, 0));
    assert_eq!(rt; row.three, Three::Members(0));
    assert_eq!(rt; row.rest, elements(false, 0));
    assert_eq!(rt; row.update.three, Three::Members(0));
    Ok(())
}

#[test]
fn the_second_place_of_a_pair_moves(rt: HostRuntime) -> Result<(), Fail> {
    let alloc = rt.alloc();
    let pair = PolyShape {
        node: 0,
        form: Form::Places(2),
    };
    let row = first_round::<Polys, Brand>(alloc, &Polys, &pair, &[0, 1], &[1], Blank::new(1))?;
    assert_eq!(rt; row.whole.marks.as_slice(), [true, true].as_slice());
    assert_eq!(rt; row.three, trits(alloc, &[2, 2])?);
    assert_eq!(rt; row.rest.marks.as_slice(), [true, false].as_slice());
    assert_eq!(rt; row.update.part.marks.as_slice(), [false, true].as_slice());
    assert_eq!(rt; row.update.three, trits(alloc, &[1, 2])?);
    assert_eq!(rt; row.update.void, trits(alloc, &[1, 1])?);
    assert_eq!(rt; row.update.three.copied(alloc)?, trits(alloc, &[1, 2])?);
    Ok(())
}

#[test]
fn the_successor_of_a_summand_stays(rt: HostRuntime) -> Result<(), Fail> {
    let alloc = rt.alloc();
    let summand = PolyShape {
        node: 0,
        form: Form::Tagged(3),
    };
    let row = first_round::<Polys, Brand>(alloc, &Polys, &summand, &[0], &[], Blank::new(1))?;
    assert_eq!(rt; row.three, Three::Tagged(3, 2));
    assert_eq!(rt; row.update.three, Three::Tagged(3, 1));
    assert_eq!(rt; row.update.void, Three::Tagged(3, 1));
    Ok(())
}

#[test]
fn the_one_successor_moves(rt: HostRuntime) -> Result<(), Fail> {
    let alloc = rt.alloc();
    let one = PolyShape {
        node: 0,
        form: Form::Identity,
    };
    let row = first_round::<Polys, Brand>(alloc, &Polys, &one, &[0], &[0], Blank::new(1))?;
    assert_eq!(rt; row.three, Three::Trit(2));
    assert_eq!(rt; row.update.three, Three::Trit(2));
    assert_eq!(rt; row.update.void, Three::Trit(1));
    Ok(())
}

#[test]
fn a_constant_is_its_label(rt: HostRuntime) -> Result<(), Fail> {
    let alloc = rt.alloc();
    let constant = PolyShape {
        node: 0,
        form: Form::Constant(7),
    };
    let row = first_round::<Polys, Brand>(alloc, &Polys, &constant, &[], &[], Blank::new(1))?;
    assert_eq!(rt; row.three, Three::Label(7));
    assert_eq!(rt; row.update.three, Three::Label(7));
    Ok(())
}

/// Sets on the left, and pairs on the right.
type Sum = Either2<Sets, Polys>;

const SUM: Sum = Either2 {
    left: Sets,
    right: Polys,
};

#[test]
fn a_sum_of_interfaces_takes_a_set_on_the_left(rt: HostRuntime) -> Result<(), Fail> {
    let alloc = rt.alloc();
    let set = Side::Left(SetShape { node: 0 });
    let labels = [Side::Left(()), Side::Left(()), Side::Left(())];
    let moved = [Side::Left(())];
    let row = first_round::<Sum, Brand>(alloc, &SUM, &set, &labels, &moved, Blank::new(1))?;
    assert!(rt; matches!(row.whole, Side::Left(w) if w == elements(false, 3)));
    assert_eq!(rt; row.three, Three::Members(0b100));
    assert!(rt; matches!(row.rest, Side::Left(w) if w == elements(true, 2)));
    assert!(rt; matches!(row.update.part, Side::Left(w) if w == elements(true, 1)));
    assert_eq!(rt; row.update.three, Three::Members(0b110));
    assert_eq!(rt; row.update.void, Three::Members(0b010));
    Ok(())
}

#[test]
fn a_sum_of_interfaces_takes_the_empty_set_on_the_left(rt: HostRuntime) -> Result<(), Fail> {
    let alloc = rt.alloc();
    let set = Side::Left(SetShape { node: 0 });
    let row = first_round::<Sum, Brand>(alloc, &SUM, &set, &[], &[], Blank::new(1))?;
    assert!(rt; matches!(row.whole, Side::Left(w) if w == elements(false, 0)));
    assert_eq!(rt; row.three, Three::Members(0));
    assert_eq!(rt; row.update.three, Three::Members(0));
    assert_eq!(rt; row.update.void, Three::Members(0));
    Ok(())
}

#[test]
fn a_sum_of_interfaces_takes_a_pair_on_the_right(rt: HostRuntime) -> Result<(), Fail> {
    let alloc = rt.alloc();
    let pair = Side::Right(PolyShape {
        node: 1,
        form: Form::Places(2),
    });
    let labels = [Side::Right(0), Side::Right(1)];
    let moved = [Side::Right(1)];
    let row = first_round::<Sum, Brand>(alloc, &SUM, &pair, &labels, &moved, Blank::new(1))?;
    assert_eq!(rt; row.three, trits(alloc, &[2, 2])?);
    assert_eq!(rt; row.update.three, trits(alloc, &[1, 2])?);
    assert_eq!(rt; row.update.void, trits(alloc, &[1, 1])?);
    Ok(())
}
