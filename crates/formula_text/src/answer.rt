//! What the lines of answers say.
use formulas::Dag;

/// A line that gives a formula to a block: its number, that of the formula, and the names of the
/// states of the block, one or more.
#[derive(Debug, Drop)]
pub struct BlockLine<'a> {
    pub line: u32,
    pub formula: u32,
    pub names: Vec<&'a [u8]>,
}

/// What the lines of answers say: the formulas, the number of the line of each, the blocks, and the
/// number of the first line that tells of a pair. Lines count from 1.
#[derive(Debug, Drop)]
pub struct AnswerText<'a> {
    pub dag: Dag,
    pub lines: Vec<u32>,
    pub blocks: Vec<BlockLine<'a>>,
    pub pair: Option<u32>,
}
