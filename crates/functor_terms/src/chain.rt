//! Terms read from their tokens, from left to right.
//!
//! Shape: one function for each form of the grammar. Each is given the tokens that are left and
//! answers a part with the tokens behind it, as the function of its form in `specs/Reading.antt`.
//! Limits: `room` is how many more parentheses may open, and `depth` how many more prefixes may
//! stand, so the recursion is bounded, and no part has more than 256 nodes.
ghost use Rattle.std.specs.Prelude.{◌≡◌, ◌<◌, length};
ghost use Rattle.functor_terms.specs.Reading.{Gives, chain_over as the_chain_over, group_at, constant_at, atom_at, base_at, prefix_at, power_at, inside_at};
ghost use Rattle.functor_terms.specs.Links.{node_of as the_node_of, chain_of, item_of};

use crate::ahead::{Ahead, Wanted};
use crate::fault::TermFault;
use crate::label_reading::labels;
use crate::letters::{letter_of, prefix_of, weights_of};
use crate::link::{Link, node_of, sign_of};
use crate::made::{made_over, made_over_one};
use crate::node::Node;
use crate::part::{NODE_LIMIT, TermPart};
use crate::powers::powers;
use crate::sign::Sign;
use std::alloc::Global;

/// The only part of a chain, or the node over its parts.
fn chain_over<'a>(
    alloc: Global,
    link: Link,
    parts: Vec<TermPart<'a>>,
    ahead: Ahead<'a>,
) -> Result<(TermPart<'a>, Ahead<'a>), TermFault>
    requires { 0 < length parts.items }
    ensures { Gives result (the_chain_over (the_node_of link) parts.entry.items ahead.entry) }
{
    let mut parts = parts;
    if parts.len() == 1
        && let Some(part) = parts.pop()
    {
        return Ok((part, ahead));
    }
    made_over(alloc, node_of(link), parts, ahead)
}

/// A constant.
fn constant<'a>(alloc: Global, ahead: Ahead<'a>) -> Result<(TermPart<'a>, Ahead<'a>), TermFault>
    ensures { Gives result (constant_at ahead.entry) }
{
    let (labels, ahead) = labels(alloc, ahead)?;
    made_over(alloc, Node::Constant(labels), Vec::new(alloc), ahead)
}

/// A chain of one or more parts.
#[cycle(reading)]
pub fn chain<'a>(
    alloc: Global,
    ahead: Ahead<'a>,
    link: Link,
    room: u32,
    depth: u32,
) -> Result<(TermPart<'a>, Ahead<'a>), TermFault>
    ensures { Gives result (chain_of link (inside_at room) depth ahead.entry) }
{
    let mut parts = Vec::new(alloc);
    let mut nodes = 0usize;
    let mut left = ahead;
    'parts: while parts.len() < NODE_LIMIT {
        let (part, behind) = item(alloc, left, link, room, depth)?;
        nodes += part.len();
        if nodes > NODE_LIMIT {
            return Err(TermFault::Grammar);
        }
        parts.push(part)?;
        match behind.behind(sign_of(link)) {
            Ok(rest) => left = rest,
            Err(same) => return chain_over(alloc, link, parts, same),
        }
    }
    Err(TermFault::Grammar)
}

/// A part of a chain.
#[cycle(reading)]
fn item<'a>(
    alloc: Global,
    ahead: Ahead<'a>,
    link: Link,
    room: u32,
    depth: u32,
) -> Result<(TermPart<'a>, Ahead<'a>), TermFault>
    ensures { Gives result (item_of link (inside_at room) depth ahead.entry) }
{
    match link {
        Link::Sum => chain(alloc, ahead, Link::Product, room, depth),
        Link::Product => power(alloc, ahead, room, depth),
    }
}

/// A term behind prefixes, and its exponents.
#[cycle(reading)]
fn power<'a>(
    alloc: Global,
    ahead: Ahead<'a>,
    room: u32,
    depth: u32,
) -> Result<(TermPart<'a>, Ahead<'a>), TermFault>
    ensures { Gives result (power_at (inside_at room) depth ahead.entry) }
{
    let (base, ahead) = prefix(alloc, ahead, room, depth)?;
    powers(alloc, base, ahead)
}

/// Weights or an atom, behind at most so many prefixes.
#[cycle(reading)]
fn prefix<'a>(
    alloc: Global,
    ahead: Ahead<'a>,
    room: u32,
    depth: u32,
) -> Result<(TermPart<'a>, Ahead<'a>), TermFault>
    ensures { Gives result (prefix_at (inside_at room) depth ahead.entry) }
{
    let Some(sign) = ahead.first() else {
        return Err(TermFault::Grammar);
    };
    match prefix_of(sign) {
        Some(node) => {
            if depth == 0 {
                return Err(TermFault::Grammar);
            }
            let (inner, ahead) = prefix(alloc, ahead.others(), room, depth - 1)?;
            made_over_one(alloc, node, inner, ahead)
        }
        None => base(alloc, ahead, room, depth),
    }
}

/// Weights where a letter of weights stands before `^(`, and else an atom.
#[cycle(reading)]
fn base<'a>(
    alloc: Global,
    ahead: Ahead<'a>,
    room: u32,
    depth: u32,
) -> Result<(TermPart<'a>, Ahead<'a>), TermFault>
    ensures { Gives result (base_at (inside_at room depth) ahead.entry) }
{
    let Some(sign) = ahead.first() else {
        return Err(TermFault::Grammar);
    };
    let Some(node) = weights_of(sign) else {
        return atom(alloc, ahead, room, depth);
    };
    match ahead.behind_power() {
        Some(inner) => {
            let (child, behind) = group(alloc, inner, room, depth)?;
            made_over_one(alloc, node, child, behind)
        }
        None => atom(alloc, ahead, room, depth),
    }
}

/// An atom.
#[cycle(reading)]
fn atom<'a>(
    alloc: Global,
    ahead: Ahead<'a>,
    room: u32,
    depth: u32,
) -> Result<(TermPart<'a>, Ahead<'a>), TermFault>
    ensures { Gives result (atom_at (inside_at room depth) ahead.entry) }
{
    let Some(sign) = ahead.first() else {
        return Err(TermFault::Grammar);
    };
    if let Sign::Open = sign {
        return group(alloc, ahead.others(), room, depth);
    }
    match letter_of(sign) {
        Some(node) => made_over(alloc, node, Vec::new(alloc), ahead.others()),
        None => constant(alloc, ahead),
    }
}

/// What stands behind an open parenthesis, up to its end.
#[cycle(reading)]
fn group<'a>(
    alloc: Global,
    ahead: Ahead<'a>,
    room: u32,
    depth: u32,
) -> Result<(TermPart<'a>, Ahead<'a>), TermFault>
    ensures { Gives result (group_at (inside_at room depth) ahead.entry) }
{
    if room == 0 {
        return Err(TermFault::Grammar);
    }
    let (inner, behind) = chain(alloc, ahead, Link::Sum, room - 1, depth)?;
    match behind.behind(Wanted::Close) {
        Ok(rest) => Ok((inner, rest)),
        Err(_) => Err(TermFault::Grammar),
    }
}
