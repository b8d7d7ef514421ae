//! Trees read from their tokens, from left to right.
//!
//! Shape: one function for each form of the grammar. Each is given the tokens that are left and
//! answers a tree with the tokens behind it, as the function of its form in `specs/Reading.antt`.
//! Limits: `room` is how many more brackets and `inj` may open, so the recursion is bounded. The
//! parts of a tuple and the entries of braces are read by loops.
ghost use Rattle.std.specs.Prelude.{◌≡◌, ℕ, List, ◌∷◌, IfOk, IfErr};
ghost use Rattle.file_cut.specs.Trees.{Spells, SpellsLine, SpellsWithin, open_limit};
ghost use Rattle.file_cut.specs.declared.tree.Tree.{Tree};
ghost use Rattle.file_cut.specs.declared.mark.Mark.{Mark};
ghost use Rattle.file_cut.specs.Bytes.{IsName, are_digits as are_all_digits};
ghost use Rattle.file_cut.specs.Reading.{Gives, left_of, word_at, tuple_at, inj_at, entry_at};
ghost use Rattle.file_cut.specs.Reading.{braces_at, opened_at, tree_at, items_at};
ghost use Rattle.file_cut.specs.Reading.{in_parens, in_braces, grouped as the_grouped};

use crate::fault::CutFault;
use crate::mark::{Ahead, Mark, ahead_of};
use crate::tree::{Entry, Tree};
use crate::word::Word;
use sqlite_items::{Boxed, Items};
use std::alloc::Global;

/// How many brackets and `inj` may be open at any place.
const OPEN_LIMIT: u32 = 64;

fn are_digits(word: &Word<'_>) -> bool
    ensures { result ≡ are_all_digits word.now }
{
    word.bytes().iter().all(|byte| byte.is_ascii_digit())
}

/// One tree in parentheses is that tree, and more are a tuple.
fn grouped<'a>(parts: Items<Tree<'a>>) -> Tree<'a>
    ensures { result ≡ the_grouped parts.entry }
{
    let mut parts = parts;
    if parts.len() == 1
        && let Some(part) = parts.pop()
    {
        return part;
    }
    Tree::Tuple(parts)
}

/// A word, where nothing may open any more.
fn word<'a>(ahead: Ahead<'a>) -> Result<(Tree<'a>, Ahead<'a>), CutFault>
    ensures { Gives result (word_at (left_of ahead.entry)) }
{
    let Ahead { mark, rest } = ahead;
    let Some(mark) = mark else {
        return Err(CutFault::Grammar);
    };
    match mark {
        Mark::Word(word) => Ok((Tree::Word(word), ahead_of(rest))),
        _ => Err(CutFault::Grammar),
    }
}

/// A tree in which as many brackets and `inj` as `room` may be open at any place.
#[cycle(cut)]
fn tree<'a>(alloc: Global, ahead: Ahead<'a>, room: u32) -> Result<(Tree<'a>, Ahead<'a>), CutFault>
    ensures { Gives result (tree_at room (left_of ahead.entry)) }
{
    if room == 0 {
        word(ahead)
    } else {
        opened(alloc, ahead, room - 1)
    }
}

/// A word, or a tree that opens a bracket or an `inj`.
#[cycle(cut)]
fn opened<'a>(alloc: Global, ahead: Ahead<'a>, room: u32) -> Result<(Tree<'a>, Ahead<'a>), CutFault>
    ensures { Gives result (opened_at (tree_at room) (left_of ahead.entry)) }
{
    let Ahead { mark, rest } = ahead;
    let Some(mark) = mark else {
        return Err(CutFault::Grammar);
    };
    match mark {
        Mark::Word(word) => Ok((Tree::Word(word), ahead_of(rest))),
        Mark::Open => tuple(alloc, ahead_of(rest), room),
        Mark::Inj => inj(alloc, ahead_of(rest), room),
        Mark::OpenBrace => braces(alloc, ahead_of(rest), room),
        _ => Err(CutFault::Grammar),
    }
}

/// The digits and the tree behind `inj`.
#[cycle(cut)]
fn inj<'a>(alloc: Global, ahead: Ahead<'a>, room: u32) -> Result<(Tree<'a>, Ahead<'a>), CutFault>
    ensures { Gives result (inj_at (tree_at room) (left_of ahead.entry)) }
{
    let Ahead { mark, rest } = ahead;
    let Some(mark) = mark else {
        return Err(CutFault::Grammar);
    };
    match mark {
        Mark::Word(index) => {
            if !are_digits(&index) {
                return Err(CutFault::Grammar);
            }
            let (inner, ahead) = tree(alloc, ahead_of(rest), room)?;
            Ok((Tree::Inj(index, Boxed::new(alloc, inner)?), ahead))
        }
        _ => Err(CutFault::Grammar),
    }
}

/// What stands behind an open parenthesis, up to its end.
#[cycle(cut)]
fn tuple<'a>(alloc: Global, ahead: Ahead<'a>, room: u32) -> Result<(Tree<'a>, Ahead<'a>), CutFault>
    ensures { Gives result (tuple_at (tree_at room) (left_of ahead.entry)) }
{
    let (parts, ahead) = parts(alloc, ahead, room)?;
    Ok((grouped(parts), ahead))
}

#[cycle(cut)]
fn parts<'a>(
    alloc: Global,
    ahead: Ahead<'a>,
    room: u32,
) -> Result<(Items<Tree<'a>>, Ahead<'a>), CutFault>
    ensures { Gives result (items_at in_parens (tree_at room) (left_of ahead.entry)) }
{
    let mut parts = Items::new(alloc);
    let mut left = ahead;
    'parts: loop {
        let (part, behind) = tree(alloc, left, room)?;
        parts.push(part)?;
        let Ahead { mark, rest } = behind;
        let Some(mark) = mark else {
            return Err(CutFault::Grammar);
        };
        match mark {
            Mark::Comma => left = ahead_of(rest),
            Mark::Close => return Ok((parts, ahead_of(rest))),
            _ => return Err(CutFault::Grammar),
        }
    }
}

/// What stands behind an open brace, up to its end.
#[cycle(cut)]
fn braces<'a>(alloc: Global, ahead: Ahead<'a>, room: u32) -> Result<(Tree<'a>, Ahead<'a>), CutFault>
    ensures { Gives result (braces_at (tree_at room) (left_of ahead.entry)) }
{
    let Ahead { mark, rest } = ahead;
    let Some(mark) = mark else {
        return Err(CutFault::Grammar);
    };
    match mark {
        Mark::CloseBrace => Ok((Tree::Braces(Items::new(alloc)), ahead_of(rest))),
        mark => {
            let ahead = Ahead {
                mark: Some(mark),
                rest,
            };
            let (entries, ahead) = entries(alloc, ahead, room)?;
            Ok((Tree::Braces(entries), ahead))
        }
    }
}

#[cycle(cut)]
fn entries<'a>(
    alloc: Global,
    ahead: Ahead<'a>,
    room: u32,
) -> Result<(Items<Entry<'a>>, Ahead<'a>), CutFault>
    ensures { Gives result (items_at in_braces (entry_at (tree_at room)) (left_of ahead.entry)) }
{
    let mut entries = Items::new(alloc);
    let mut others = ahead;
    'entries: loop {
        let (entry, behind) = entry(alloc, others, room)?;
        entries.push(entry)?;
        let Ahead { mark, rest } = behind;
        let Some(mark) = mark else {
            return Err(CutFault::Grammar);
        };
        match mark {
            Mark::Comma => others = ahead_of(rest),
            Mark::CloseBrace => return Ok((entries, ahead_of(rest))),
            _ => return Err(CutFault::Grammar),
        }
    }
}

/// A tree, and the tree behind its colon if one stands there.
#[cycle(cut)]
fn entry<'a>(alloc: Global, ahead: Ahead<'a>, room: u32) -> Result<(Entry<'a>, Ahead<'a>), CutFault>
    ensures { Gives result (entry_at (tree_at room) (left_of ahead.entry)) }
{
    let (first, ahead) = tree(alloc, ahead, room)?;
    let Ahead { mark, rest } = ahead;
    match mark {
        Some(Mark::Colon) => {
            let (second, ahead) = tree(alloc, ahead_of(rest), room)?;
            let second = Some(second);
            Ok((Entry { first, second }, ahead))
        }
        mark => {
            let second = None;
            Ok((Entry { first, second }, Ahead { mark, rest }))
        }
    }
}

/// The tree that all the tokens spell.
fn whole<'a>(alloc: Global, ahead: Ahead<'a>) -> Result<Tree<'a>, CutFault>
    ensures tree { IfOk result (SpellsWithin open_limit (left_of ahead.entry)) }
    ensures grammar { result ≡ Err CutFault.Grammar →
        (t : Tree) → ¬ SpellsWithin open_limit (left_of ahead.entry) t }
{
    let (tree, behind) = tree(alloc, ahead, OPEN_LIMIT)?;
    let Ahead { mark, rest: _ } = behind;
    match mark {
        None => Ok(tree),
        Some(_) => Err(CutFault::Grammar),
    }
}

/// The word before a colon, and the tokens behind that.
fn head<'a>(ahead: Ahead<'a>) -> Result<(Word<'a>, Ahead<'a>), CutFault>
    ensures found { IfOk result (λ found.
        left_of ahead.entry ≡ Mark.Word found.0 ∷ Mark.Colon ∷ left_of found.1) }
    ensures grammar { IfErr result (λ e. (e ≡ CutFault.Grammar)
        × ((head : List ℕ) (rest : List Mark)
        → left_of ahead.entry ≡ Mark.Word head ∷ Mark.Colon ∷ rest → ⊥)) }
{
    let Ahead { mark, rest } = ahead;
    let Some(mark) = mark else {
        return Err(CutFault::Grammar);
    };
    match mark {
        Mark::Word(head) => {
            let Ahead { mark, rest } = ahead_of(rest);
            let Some(mark) = mark else {
                return Err(CutFault::Grammar);
            };
            match mark {
                Mark::Colon => Ok((head, ahead_of(rest))),
                _ => Err(CutFault::Grammar),
            }
        }
        _ => Err(CutFault::Grammar),
    }
}

/// The tree that the text spells. Grammar comes exactly where it spells none.
pub fn cut_tree<'a>(alloc: Global, text: &'a [u8]) -> Result<Tree<'a>, CutFault>
    ensures tree { IfOk result (Spells text.now) }
    ensures grammar { result ≡ Err CutFault.Grammar → (t : Tree) → ¬ Spells text.now t }
{
    whole(alloc, ahead_of(text))
}

/// The head and the tree of a structure line. Grammar comes exactly where the text is no such line.
pub fn cut_line<'a>(alloc: Global, text: &'a [u8]) -> Result<(&'a [u8], Tree<'a>), CutFault>
    ensures line { IfOk result (λ found. SpellsLine text.now found.0.now found.1) }
    ensures head { IfOk result (λ found. IsName found.0.now) }
    ensures grammar { result ≡ Err CutFault.Grammar →
        (head : List ℕ) (t : Tree) → ¬ SpellsLine text.now head t }
{
    let (head, ahead) = head(ahead_of(text))?;
    let tree = whole(alloc, ahead)?;
    Ok((head.bytes(), tree))
}
