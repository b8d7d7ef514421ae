//! Laws of the definitions, each the contract of a function that does nothing.
ghost use Rattle.functor_terms.specs.Cut.{OneCut, TextsAreCut};
ghost use Rattle.functor_terms.specs.Grammar.{OneTerm, OnlyTerms};
ghost use Rattle.functor_terms.specs.Text.{TextsSpell};

/// Each functor line is cut into its tokens, with blanks alone between them, and into no others.
/// Digits and words are as long as can be.
pub fn lines_are_cut()
    ensures each { TextsAreCut }
    ensures one { OneCut }
{}

/// No text spells two terms, and what a text spells is a term.
pub fn one_reading()
    ensures one { OneTerm }
    ensures term { OnlyTerms }
{}

/// The canonical text of a term spells it. Each node opens one pair of parentheses at most, and a
/// term has at most 32 levels.
pub fn texts_spell_terms()
    ensures { TextsSpell }
{}
