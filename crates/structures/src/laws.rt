//! Laws of the definitions, each the contract of a function that does nothing.

ghost use Rattle.structures.specs.Laws.{NothingIsMerged};

/// Each structure at a layer node is a sorted state of its own.
pub fn nothing_is_merged()
    ensures counts { NothingIsMerged }
{}
