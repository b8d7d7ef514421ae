//! The texts of values, node by node.
ghost use Rattle.std.specs.Prelude.{◌≡◌, ◌≤◌, ◌<◌, ◌++◌, length, map, OnOk};
ghost use Rattle.functor_terms.specs.Terms.{node_at};
ghost use Rattle.typing.specs.Values.{index, inner};
ghost use Rattle.structure_writer.specs.Text.{write_at, text_at, child_texts, listed, in_braces, in_parentheses, part_text, part_texts, keyed_texts, entry_texts, weights_text};

use crate::weight::push_weight;
use crate::words::{push_before, push_label, push_name, push_number};
use functor_terms::{LabelSet, Node, Term};
use sqlite_items::at;
use std::alloc::AllocError;
use typing::{Names, Value};

/// Puts the text of a value at node p last, where l is the common denominator.
#[cycle(values)]
pub(crate) fn push_value(
    text: &mut Vec<u8>,
    term: &Term,
    names: &Names,
    l: u64,
    p: u32,
    value: &Value,
) -> Result<(), AllocError>
    requires node { p < length term.now }
    requires positive { 1 ≤ l }
    ensures { OnOk result (text.new.items
        ≡ text.old.items ++ text_at l names.now term.now p value.now) }
{
    term.is_term();
    match term.node(p) {
        Node::State => push_name(text, names, value.state()),
        Node::Constant(labels) => push_label(text, labels, value.label()),
        Node::Naturals => push_number(text, value.label()),
        Node::Product => push_tuple(text, term, names, l, p, value.parts()),
        Node::Sum => push_inj(text, term, names, l, p, value),
        Node::Power(labels) => push_power(text, term, names, l, p, labels, value.parts()),
        Node::Powerset => push_set(text, term, names, l, p, value.parts()),
        Node::Bag | Node::Distribution | Node::Integers | Node::Rationals => {
            push_weights(text, term, names, l, p, value)
        }
    }
}

/// Puts the text of a value at the k-th child of node p last.
#[cycle(values)]
fn push_child(
    text: &mut Vec<u8>,
    term: &Term,
    names: &Names,
    l: u64,
    p: u32,
    k: usize,
    value: &Value,
) -> Result<(), AllocError>
    requires node { p < length term.now }
    requires positive { 1 ≤ l }
    ensures { OnOk result (text.new.items
        ≡ text.old.items ++ write_at (child_texts l names.now term.now p) k value.now) }
{
    term.is_term();
    match at(term.children(p), k) {
        Some(child) => push_value(text, term, names, l, *child, value),
        None => Ok(()),
    }
}

/// Puts the parts of a tuple last, each at its own child of node p, in parentheses.
#[cycle(values)]
fn push_tuple(
    text: &mut Vec<u8>,
    term: &Term,
    names: &Names,
    l: u64,
    p: u32,
    parts: &[Value],
) -> Result<(), AllocError>
    requires node { p < length term.now }
    requires positive { 1 ≤ l }
    ensures { OnOk result (text.new.items ≡ text.old.items
        ++ in_parentheses (listed (part_texts (child_texts l names.now term.now p) 0 parts.now))) }
{
    text.push(b'(')?;
    for (k, part) in parts.iter().enumerate() {
        push_before(text, k, b", ".as_slice())?;
        push_child(text, term, names, l, p, k, part)?;
    }
    text.push(b')')?;
    Ok(())
}

/// Puts a part of a sum last: its index, and its value at that child of node p.
#[cycle(values)]
fn push_inj(
    text: &mut Vec<u8>,
    term: &Term,
    names: &Names,
    l: u64,
    p: u32,
    value: &Value,
) -> Result<(), AllocError>
    requires node { p < length term.now }
    requires positive { 1 ≤ l }
    ensures { OnOk result (text.new.items ≡ text.old.items ++ part_text (index value.now)
        (write_at (child_texts l names.now term.now p) (index value.now) (inner value.now))) }
{
    let index = value.index();
    text.extend_from_slice(b"inj ".as_slice())?;
    push_number(text, u64::from(index))?;
    text.push(b' ')?;
    push_child(text, term, names, l, p, index as usize, value.inner())
}

/// Puts the parts of a power last, each behind its label, in braces.
#[cycle(values)]
fn push_power(
    text: &mut Vec<u8>,
    term: &Term,
    names: &Names,
    l: u64,
    p: u32,
    labels: &LabelSet,
    parts: &[Value],
) -> Result<(), AllocError>
    requires node { p < length term.now }
    requires positive { 1 ≤ l }
    ensures { OnOk result (text.new.items ≡ text.old.items ++ in_braces (listed
        (keyed_texts labels.now (write_at (child_texts l names.now term.now p) 0) 0 parts.now))) }
{
    text.push(b'{')?;
    for (k, part) in parts.iter().enumerate() {
        push_before(text, k, b", ".as_slice())?;
        push_label(text, labels, k as u64)?;
        text.extend_from_slice(b": ".as_slice())?;
        push_child(text, term, names, l, p, 0, part)?;
    }
    text.push(b'}')?;
    Ok(())
}

/// Puts the elements of a set last, in braces.
#[cycle(values)]
fn push_set(
    text: &mut Vec<u8>,
    term: &Term,
    names: &Names,
    l: u64,
    p: u32,
    members: &[Value],
) -> Result<(), AllocError>
    requires node { p < length term.now }
    requires positive { 1 ≤ l }
    ensures { OnOk result (text.new.items ≡ text.old.items ++ in_braces (listed
        (map (write_at (child_texts l names.now term.now p) 0) members.now))) }
{
    text.push(b'{')?;
    for (k, member) in members.iter().enumerate() {
        push_before(text, k, b", ".as_slice())?;
        push_child(text, term, names, l, p, 0, member)?;
    }
    text.push(b'}')?;
    Ok(())
}

/// Puts the entries of a weight list last, each value before its weight, in braces.
#[cycle(values)]
fn push_weights(
    text: &mut Vec<u8>,
    term: &Term,
    names: &Names,
    l: u64,
    p: u32,
    value: &Value,
) -> Result<(), AllocError>
    requires node { p < length term.now }
    requires positive { 1 ≤ l }
    ensures { OnOk result (text.new.items ≡ text.old.items
        ++ weights_text l (node_at term.now p) (child_texts l names.now term.now p) value.now) }
{
    let node = term.node(p);
    let entries = value.entries();
    text.push(b'{')?;
    for (k, entry) in entries.iter().enumerate() {
        push_before(text, k, b", ".as_slice())?;
        push_child(text, term, names, l, p, 0, &entry.0)?;
        text.extend_from_slice(b": ".as_slice())?;
        push_weight(text, node, l, entry.1)?;
    }
    text.push(b'}')?;
    Ok(())
}
