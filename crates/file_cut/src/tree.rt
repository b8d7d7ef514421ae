//! Trees.
use crate::word::Word;
use sqlite_items::{Boxed, Items};

/// What the text of a structure spells, before it is fitted to a functor.
#[cycle(tree)]
#[derive(Debug, Drop)]
pub enum Tree<'a> {
    /// A word other than `inj`.
    Word(Word<'a>),
    /// `(t, u, ..)`: two trees or more.
    Tuple(Items<Tree<'a>>),
    /// `inj d t`: a word of digits and a tree.
    Inj(Word<'a>, Boxed<Tree<'a>>),
    /// `{e, f, ..}`: entries in their order, or none.
    Braces(Items<Entry<'a>>),
}

/// `t` or `t: u` in braces: a tree, and the tree behind its colon.
#[cycle(tree)]
#[derive(Debug, Drop)]
pub struct Entry<'a> {
    pub first: Tree<'a>,
    pub second: Option<Tree<'a>>,
}
