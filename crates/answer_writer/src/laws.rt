//! Laws of these texts, each the contract of a function that does nothing.
ghost use Rattle.answer_writer.specs.Laws.{PairLinesCanBeSaid, ExplanationsAreRead, ExplainedFormulasAreRead};
ghost use Rattle.answer_writer.specs.Laws.{BlockLinesCanBeSaid, BlockLinesTellNoPair, CertificatesAreRead, CertifiedFormulasAreRead, BlocksAreKept};
ghost use Rattle.answer_writer.specs.Laws.{StatsAreComments};

use formula_text::{answer_texts_are_read, answers_have_formulas_and_blocks};

/// The lines of pairs can be said behind formulas that they cite. So an explanation is read as its
/// formulas and its pairs, also with a comment behind it.
pub fn pair_lines_can_be_said()
    ensures lines { PairLinesCanBeSaid }
    ensures texts { ExplanationsAreRead }
    ensures formulas { ExplainedFormulasAreRead }
{
    answer_texts_are_read();
}

/// The lines of blocks that are not empty can be said behind formulas that they cite, and none
/// tells of a pair. So a certificate is read as its formulas and its blocks, also with a comment
/// behind it.
pub fn block_lines_can_be_said()
    ensures lines { BlockLinesCanBeSaid }
    ensures no_pair { BlockLinesTellNoPair }
    ensures texts { CertificatesAreRead }
    ensures formulas { CertifiedFormulasAreRead }
    ensures blocks { BlocksAreKept }
{
    answer_texts_are_read();
    answers_have_formulas_and_blocks();
}

/// The line of statistics is a comment.
pub fn stats_are_comments()
    ensures { StatsAreComments }
{}
