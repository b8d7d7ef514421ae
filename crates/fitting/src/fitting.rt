//! Trees fitted to terms.
//!
//! Shape: one function for each kind of node, as `specs/Fitting.antt` has it. The recursion goes
//! from a node to its children; lists are read by loops.
ghost use Rattle.std.specs.Prelude.{◌≡◌, ◌<◌, length, map, IfOk, IsTrue, MatchOption, Some, None, vec_items};
ghost use Rattle.std.specs.List.{list_all};
ghost use Rattle.functor_terms.specs.Terms.{children_at};
ghost use Rattle.fitting.specs.Levels.{held as the_held};
ghost use Rattle.fitting.specs.Fitting.{Gives, GivesAs, fitting, child_fit, product_fit, sum_fit, power_fit, set_fit, weights_fit, each, places, entry_fit, filled, empty_slots, is_free as slot_is_free, all_held, is_keyed as word_and_tree, is_alone as tree_alone, has_weight as weight_or_none};
ghost use Rattle.fitting.specs.Scaling.{are_numerals};

use crate::fault::FitFault;
use crate::fitted::{Fitted, Weight};
use crate::levels::{branch, entries, held, key, parts, weight};
use crate::weight::{has_weight, is_alone, is_keyed, label, number, state, weight_of};
use file_cut::{Entry, Tree};
use functor_terms::{LabelSet, Node, Term};
use sqlite_items::{Boxed, Items, at};
use std::alloc::{AllocError, Global};
use typing::{Names, TypeKind};

/// What the tree denotes at the term, with its words read.
///
/// `Misfit`: the tree denotes nothing there, and the kind is that of its first misfit in reading
/// order; it is never `RepeatedState`. A numeral over its bound is no misfit.
pub fn fit(alloc: Global, term: &Term, tree: &Tree, names: &Names) -> Result<Fitted, FitFault>
    ensures exact { Gives result (fitting term.now names.now 0 tree.now) }
    ensures numerals { IfOk result (λ fitted. IsTrue (are_numerals fitted)) }
{
    // a term has a node
    term.is_term();
    fit_at(alloc, term, names, 0, tree)
}

/// The same at node p.
#[cycle(fit)]
fn fit_at(
    alloc: Global,
    term: &Term,
    names: &Names,
    p: u32,
    tree: &Tree,
) -> Result<Fitted, FitFault>
    requires { p < length term.now }
    ensures { Gives result (fitting term.now names.now p tree.now) }
{
    term.is_term();
    let node = term.node(p);
    match node {
        Node::State => state(names, tree),
        Node::Constant(labels) => label(labels, tree),
        Node::Naturals => number(tree),
        Node::Product => product(alloc, term, names, p, tree),
        Node::Sum => sum(alloc, term, names, p, tree),
        Node::Power(labels) => power(alloc, term, names, p, labels, tree),
        Node::Powerset => set(alloc, term, names, p, tree),
        Node::Bag | Node::Distribution | Node::Integers | Node::Rationals => {
            weighted(alloc, term, names, p, node, tree)
        }
    }
}

/// The same at the k-th child of node p.
#[cycle(fit)]
fn fit_child(
    alloc: Global,
    term: &Term,
    names: &Names,
    p: u32,
    k: usize,
    tree: &Tree,
) -> Result<Fitted, FitFault>
    requires { p < length term.now }
    ensures { Gives result (child_fit term.now names.now p k tree.now) }
{
    term.is_term();
    match at(term.children(p), k) {
        Some(child) => fit_at(alloc, term, names, *child, tree),
        None => Err(FitFault::Misfit(TypeKind::WrongShape)),
    }
}

/// A tuple with a part for each child of node p.
#[cycle(fit)]
fn product(
    alloc: Global,
    term: &Term,
    names: &Names,
    p: u32,
    tree: &Tree,
) -> Result<Fitted, FitFault>
    requires { p < length term.now }
    ensures { Gives result
        (product_fit (map (fitting term.now names.now) (children_at term.now p)) tree.now) }
{
    let Some(parts) = parts(tree) else {
        return Err(FitFault::Misfit(TypeKind::WrongShape));
    };
    if parts.len() != term.children(p).len() {
        return Err(FitFault::Misfit(TypeKind::WrongCount));
    }
    match each_place(alloc, term, names, p, parts) {
        Ok(parts) => Ok(Fitted::Tuple(Items::from_vec(parts))),
        Err(fault) => Err(fault),
    }
}

/// The parts of a tuple, each at its own child of node p.
#[cycle(fit)]
fn each_place(
    alloc: Global,
    term: &Term,
    names: &Names,
    p: u32,
    trees: &[Tree],
) -> Result<Vec<Fitted>, FitFault>
    requires { p < length term.now }
    ensures { GivesAs vec_items result
        (places (map (fitting term.now names.now) (children_at term.now p)) 0 trees.now) }
{
    let mut parts = Vec::with_capacity(alloc, trees.len())?;
    for (k, tree) in trees.iter().enumerate() {
        let part = fit_child(alloc, term, names, p, k, tree)?;
        parts.push(part)?;
    }
    Ok(parts)
}

/// A part of a sum.
#[cycle(fit)]
fn sum(alloc: Global, term: &Term, names: &Names, p: u32, tree: &Tree) -> Result<Fitted, FitFault>
    requires { p < length term.now }
    ensures { Gives result
        (sum_fit (map (fitting term.now names.now) (children_at term.now p)) tree.now) }
{
    let Some((index, inner)) = branch(tree) else {
        return Err(FitFault::Misfit(TypeKind::WrongShape));
    };
    let count = term.children(p).len() as u32;
    let Some(k) = LabelSet::Below(count).number(index) else {
        return Err(FitFault::Misfit(TypeKind::BadIndex));
    };
    match fit_child(alloc, term, names, p, k as usize, inner) {
        Ok(inner) => Ok(Fitted::Inj(k, Boxed::new(alloc, inner)?)),
        Err(fault) => Err(fault),
    }
}

/// A value for each label.
#[cycle(fit)]
fn power(
    alloc: Global,
    term: &Term,
    names: &Names,
    p: u32,
    labels: &LabelSet,
    tree: &Tree,
) -> Result<Fitted, FitFault>
    requires { p < length term.now }
    ensures { Gives result (power_fit labels.now
        (map (fitting term.now names.now) (children_at term.now p)) tree.now) }
{
    let Some(entries) = entries(tree) else {
        return Err(FitFault::Misfit(TypeKind::WrongShape));
    };
    if !all_keyed(entries) {
        return Err(FitFault::Misfit(TypeKind::WrongShape));
    }
    let slots = match fill(alloc, term, names, p, labels, entries) {
        Ok(slots) => slots,
        Err(fault) => return Err(fault),
    };
    match held_in_all(alloc, slots)? {
        Some(values) => Ok(Fitted::Tuple(Items::from_vec(values))),
        None => Err(FitFault::Misfit(TypeKind::MissingKey)),
    }
}

/// Whether each entry is a word, a colon and a tree.
fn all_keyed(entries: &[Entry]) -> bool
    ensures { result ≡ list_all word_and_tree entries.now }
{
    for entry in entries {
        if !is_keyed(entry) {
            return false;
        }
    }
    true
}

/// A set of values at the first child of node p.
#[cycle(fit)]
fn set(alloc: Global, term: &Term, names: &Names, p: u32, tree: &Tree) -> Result<Fitted, FitFault>
    requires { p < length term.now }
    ensures { Gives result
        (set_fit (map (fitting term.now names.now) (children_at term.now p)) tree.now) }
{
    let Some(entries) = entries(tree) else {
        return Err(FitFault::Misfit(TypeKind::WrongShape));
    };
    if !all_alone(entries) {
        return Err(FitFault::Misfit(TypeKind::WrongShape));
    }
    match each_member(alloc, term, names, p, entries) {
        Ok(members) => Ok(Fitted::Set(Items::from_vec(members))),
        Err(fault) => Err(fault),
    }
}

/// Whether each entry is a tree alone.
fn all_alone(entries: &[Entry]) -> bool
    ensures { result ≡ list_all tree_alone entries.now }
{
    for entry in entries {
        if !is_alone(entry) {
            return false;
        }
    }
    true
}

/// The members of a set.
#[cycle(fit)]
fn each_member(
    alloc: Global,
    term: &Term,
    names: &Names,
    p: u32,
    entries: &[Entry],
) -> Result<Vec<Fitted>, FitFault>
    requires { p < length term.now }
    ensures { GivesAs vec_items result
        (each (λ e. child_fit term.now names.now p 0 (the_held e)) entries.now) }
{
    let mut members = Vec::with_capacity(alloc, entries.len())?;
    for entry in entries {
        let member = fit_child(alloc, term, names, p, 0, held(entry))?;
        members.push(member)?;
    }
    Ok(members)
}

/// A list of values at the first child of node p, each with its weight.
#[cycle(fit)]
fn weighted(
    alloc: Global,
    term: &Term,
    names: &Names,
    p: u32,
    node: &Node,
    tree: &Tree,
) -> Result<Fitted, FitFault>
    requires { p < length term.now }
    ensures { Gives result (weights_fit node.now
        (map (fitting term.now names.now) (children_at term.now p)) tree.now) }
{
    let Some(entries) = entries(tree) else {
        return Err(FitFault::Misfit(TypeKind::WrongShape));
    };
    if !all_weighted(node, entries) {
        return Err(FitFault::Misfit(TypeKind::WrongShape));
    }
    match each_entry(alloc, term, names, p, node, entries) {
        Ok(weights) => Ok(Fitted::Weights(Items::from_vec(weights))),
        Err(fault) => Err(fault),
    }
}

/// Whether each entry has a weight, or needs none.
fn all_weighted(node: &Node, entries: &[Entry]) -> bool
    ensures { result ≡ list_all (weight_or_none node.now) entries.now }
{
    for entry in entries {
        if !has_weight(node, entry) {
            return false;
        }
    }
    true
}

/// The entries of a weight list.
#[cycle(fit)]
fn each_entry(
    alloc: Global,
    term: &Term,
    names: &Names,
    p: u32,
    node: &Node,
    entries: &[Entry],
) -> Result<Vec<(Fitted, Weight)>, FitFault>
    requires { p < length term.now }
    ensures { GivesAs vec_items result
        (each (entry_fit node.now (child_fit term.now names.now p 0)) entries.now) }
{
    let mut weights = Vec::with_capacity(alloc, entries.len())?;
    for entry in entries {
        let weighted = fit_entry(alloc, term, names, p, node, entry)?;
        weights.push(weighted)?;
    }
    Ok(weights)
}

/// A value at the first child of node p, and its weight.
#[cycle(fit)]
fn fit_entry(
    alloc: Global,
    term: &Term,
    names: &Names,
    p: u32,
    node: &Node,
    entry: &Entry,
) -> Result<(Fitted, Weight), FitFault>
    requires { p < length term.now }
    ensures { Gives result (entry_fit node.now (child_fit term.now names.now p 0) entry.now) }
{
    let value = match fit_child(alloc, term, names, p, 0, held(entry)) {
        Ok(value) => value,
        Err(fault) => return Err(fault),
    };
    match weight_of(node, entry) {
        Ok(weight) => Ok((value, weight)),
        Err(fault) => Err(fault),
    }
}

/// No value for any label yet.
fn no_values(alloc: Global, labels: &LabelSet) -> Result<Vec<Option<Fitted>>, AllocError>
    ensures { IfOk result (λ slots. slots.items ≡ empty_slots labels.now) }
{
    let count = labels.len() as usize;
    let mut slots = Vec::with_capacity(alloc, count)?;
    for _ in 0..count {
        slots.push(None)?;
    }
    Ok(slots)
}

/// The values of the labels, as the entries give them.
#[cycle(fit)]
fn fill(
    alloc: Global,
    term: &Term,
    names: &Names,
    p: u32,
    labels: &LabelSet,
    entries: &[Entry],
) -> Result<Vec<Option<Fitted>>, FitFault>
    requires { p < length term.now }
    ensures { GivesAs vec_items result (filled labels.now (child_fit term.now names.now p 0)
        (empty_slots labels.now) entries.now) }
{
    let mut slots = no_values(alloc, labels)?;
    for entry in entries {
        let Some(word) = key(entry) else {
            return Err(FitFault::Misfit(TypeKind::WrongShape));
        };
        let Some(tree) = weight(entry) else {
            return Err(FitFault::Misfit(TypeKind::WrongShape));
        };
        let Some(k) = labels.number(word) else {
            return Err(FitFault::Misfit(TypeKind::NotALabel));
        };
        if !is_free(slots.as_slice(), k) {
            return Err(FitFault::Misfit(TypeKind::RepeatedKey));
        }
        let value = fit_child(alloc, term, names, p, 0, tree)?;
        slots[k as usize] = Some(value);
    }
    Ok(slots)
}

/// Whether the slot is there, and empty.
fn is_free(slots: &[Option<Fitted>], k: u32) -> bool
    ensures { result ≡ slot_is_free slots.now k }
{
    match slots.get(k as usize) {
        Some(None) => true,
        _ => false,
    }
}

/// What all slots hold, if none is empty.
fn held_in_all(alloc: Global, slots: Vec<Option<Fitted>>) -> Result<Option<Vec<Fitted>>, AllocError>
    ensures { IfOk result (λ held. MatchOption held (all_held slots.items ≡ None)
        (λ values. all_held slots.items ≡ Some values.items)) }
{
    let mut values = Vec::with_capacity(alloc, slots.len())?;
    let mut left = slots.into_iter();
    while let Some(slot) = left.next() {
        let Some(value) = slot else {
            return Ok(None);
        };
        values.push(value)?;
    }
    Ok(Some(values))
}
