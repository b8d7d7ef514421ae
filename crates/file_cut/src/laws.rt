//! Laws of the definitions, each the contract of a function that does nothing.
ghost use Rattle.file_cut.specs.Lines.{LinesCover};
ghost use Rattle.file_cut.specs.Tokens.{TokensCover};
ghost use Rattle.file_cut.specs.Trees.{OneTree, OneLine};

/// The lines of a file, with their line ends, are the file.
pub fn lines_cover()
    ensures { LinesCover }
{}

/// Tokens are words that cannot be longer, or single bytes, with blanks alone around them.
pub fn tokens_cover()
    ensures { TokensCover }
{}

/// No text spells two trees, and no line has two heads or two trees.
pub fn one_reading()
    ensures tree { OneTree }
    ensures line { OneLine }
{}
