//! The canonical text of terms.
//!
//! Shape: the bytes are put last in one vector, node by node. Whether a child stands in parentheses
//! is told by its node, before its text is put. The recursion goes from a node to its children, so
//! it is as deep as the term.
ghost use Rattle.std.specs.Prelude.{◌≡◌, ℕ, List, ◌<◌, ◌++◌, ◌==◌, [], length, map, IfOk, OnOk, codes, if◌then◌else◌};
ghost use Rattle.std.specs.List.{join_by};
ghost use Rattle.functor_terms.specs.Terms.{children_at};
ghost use Rattle.functor_terms.specs.Grammar.{SpellsTerm};
ghost use Rattle.functor_terms.specs.Text.{text_of_term, shown_at, node_text, label_text, enclosed, only, within, level_of as the_level_of};

use crate::labels::Labels;
use crate::node::{LabelSet, Node};
use crate::term::Term;
use itoa::Buffer;
use std::alloc::{AllocError, Global};

/// How loosely prefixes, weights and atoms bind.
const PREFIX_LEVEL: u32 = 0;
/// How loosely powers bind.
const POWER_LEVEL: u32 = 1;
/// How loosely products bind.
const PRODUCT_LEVEL: u32 = 2;
/// How loosely sums bind.
const SUM_LEVEL: u32 = 3;

/// How loosely the text of a node binds.
fn level_of(node: &Node) -> u32
    ensures { result ≡ the_level_of node.now }
{
    match node {
        Node::Power(_) => POWER_LEVEL,
        Node::Product => PRODUCT_LEVEL,
        Node::Sum => SUM_LEVEL,
        _ => PREFIX_LEVEL,
    }
}

/// Puts a separator last, but not before the first of a list.
fn push_before(text: &mut Vec<u8>, place: usize, separator: &[u8]) -> Result<(), AllocError>
    ensures { OnOk result (text.new.items
        ≡ text.old.items ++ (if place == 0 then [] else separator.now)) }
{
    if place == 0 {
        return Ok(());
    }
    text.extend_from_slice(separator)
}

/// Puts words last, with commas between them.
fn push_words(text: &mut Vec<u8>, words: &Labels) -> Result<(), AllocError>
    ensures { OnOk result (text.new.items
        ≡ text.old.items ++ join_by (λ word. word) (codes ",") words.now) }
{
    for i in 0..words.len() {
        push_before(text, i as usize, b",".as_slice())?;
        text.extend_from_slice(words.word(i))?;
    }
    Ok(())
}

/// Puts labels last: the number, or the words in braces.
fn push_labels(text: &mut Vec<u8>, labels: &LabelSet) -> Result<(), AllocError>
    ensures { OnOk result (text.new.items ≡ text.old.items ++ label_text labels.now) }
{
    match labels {
        LabelSet::Below(n) => {
            let mut digits = Buffer::new();
            text.extend_from_slice(digits.format(*n).as_bytes())
        }
        LabelSet::Listed(words) => {
            text.extend_from_slice(b"{".as_slice())?;
            push_words(text, words)?;
            text.extend_from_slice(b"}".as_slice())
        }
    }
}

/// Puts the text of a node over the children of node p last.
#[cycle(text)]
fn push_over(text: &mut Vec<u8>, node: &Node, term: &Term, p: u32) -> Result<(), AllocError>
    requires { p < length term.now }
    ensures { OnOk result (text.new.items ≡ text.old.items
        ++ node_text node.now (map (shown_at term.now) (children_at term.now p))) }
{
    match node {
        Node::State => text.extend_from_slice(b"X".as_slice()),
        Node::Constant(labels) => push_labels(text, labels),
        Node::Naturals => text.extend_from_slice(b"N".as_slice()),
        Node::Product => push_parts(text, b" x ".as_slice(), POWER_LEVEL, term, p),
        Node::Sum => push_parts(text, b" + ".as_slice(), PRODUCT_LEVEL, term, p),
        Node::Power(labels) => {
            push_child(text, POWER_LEVEL, term, p)?;
            text.extend_from_slice(b"^".as_slice())?;
            push_labels(text, labels)
        }
        Node::Powerset => push_behind(text, b"P ".as_slice(), term, p),
        Node::Bag => push_behind(text, b"B ".as_slice(), term, p),
        Node::Distribution => push_behind(text, b"D ".as_slice(), term, p),
        Node::Integers => push_weights(text, b"Z^(".as_slice(), term, p),
        Node::Rationals => push_weights(text, b"Q^(".as_slice(), term, p),
    }
}

/// Puts a letter and the text of the one child of node p last.
#[cycle(text)]
fn push_behind(text: &mut Vec<u8>, letter: &[u8], term: &Term, p: u32) -> Result<(), AllocError>
    requires { p < length term.now }
    ensures { OnOk result (text.new.items ≡ text.old.items ++ letter.now
        ++ within PREFIX_LEVEL (only (map (shown_at term.now) (children_at term.now p)))) }
{
    text.extend_from_slice(letter)?;
    push_child(text, PREFIX_LEVEL, term, p)
}

/// Puts a letter with an open parenthesis, the text of the one child of node p, and the end of the
/// parentheses last.
#[cycle(text)]
fn push_weights(text: &mut Vec<u8>, letter: &[u8], term: &Term, p: u32) -> Result<(), AllocError>
    requires { p < length term.now }
    ensures { OnOk result (text.new.items ≡ text.old.items ++ letter.now
        ++ (only (map (shown_at term.now) (children_at term.now p))).text ++ codes ")") }
{
    term.is_term();
    text.extend_from_slice(letter)?;
    push_child(text, SUM_LEVEL, term, p)?;
    text.extend_from_slice(b")".as_slice())
}

/// Puts the text of the one child of node p last, in parentheses if it binds more loosely than the
/// level.
#[cycle(text)]
fn push_child(text: &mut Vec<u8>, level: u32, term: &Term, p: u32) -> Result<(), AllocError>
    requires { p < length term.now }
    ensures { OnOk result (text.new.items ≡ text.old.items
        ++ within level (only (map (shown_at term.now) (children_at term.now p)))) }
{
    term.is_term();
    match term.children(p).split_first() {
        Some((child, _)) => push_within(text, level, term, *child),
        None => Ok(()),
    }
}

/// Puts the texts of the children of node p last, with a separator between each two.
#[cycle(text)]
fn push_parts(
    text: &mut Vec<u8>,
    separator: &[u8],
    level: u32,
    term: &Term,
    p: u32,
) -> Result<(), AllocError>
    requires { p < length term.now }
    ensures { OnOk result (text.new.items ≡ text.old.items ++ join_by (within level) separator.now
        (map (shown_at term.now) (children_at term.now p))) }
{
    term.is_term();
    let children = term.children(p);
    for (i, child) in children.iter().enumerate() {
        push_before(text, i, separator)?;
        push_within(text, level, term, *child)?;
    }
    Ok(())
}

/// Puts the text of the term below node p last, in parentheses if it binds more loosely than the
/// level.
#[cycle(text)]
fn push_within(text: &mut Vec<u8>, level: u32, term: &Term, p: u32) -> Result<(), AllocError>
    requires { p < length term.now }
    ensures { OnOk result (text.new.items ≡ text.old.items ++ within level (shown_at term.now p)) }
{
    term.is_term();
    let node = term.node(p);
    if level_of(node) <= level {
        return push_over(text, node, term, p);
    }
    text.extend_from_slice(b"(".as_slice())?;
    push_over(text, node, term, p)?;
    text.extend_from_slice(b")".as_slice())
}

/// The canonical text of a term.
pub fn term_text(alloc: Global, term: &Term) -> Result<Vec<u8>, AllocError>
    ensures text { IfOk result (λ text. text.items ≡ text_of_term term.now) }
    ensures spells { IfOk result (λ text. SpellsTerm text.items term.now) }
{
    term.is_term();
    // each node has a byte at least
    let mut text = Vec::with_capacity(alloc, term.len() as usize)?;
    push_within(&mut text, SUM_LEVEL, term, 0)?;
    Ok(text)
}
