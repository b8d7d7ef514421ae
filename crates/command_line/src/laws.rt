//! Laws of the words, each the contract of a function that does nothing.
ghost use Rattle.command_line.specs.Plain.{PlainWordsAreTaken, FlaggedWordsAreTaken};

/// Words of which none begins with `-` are taken as they stand, with or without `--stats` behind
/// them. So such words of a row of the table make the request of that row.
pub fn plain_words_are_taken()
    ensures plain { PlainWordsAreTaken }
    ensures flagged { FlaggedWordsAreTaken }
{}
