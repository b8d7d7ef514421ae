//! The answer of the refiner: its last blocks, and how it came to them.

ghost use Rattle.std.specs.Prelude.{◌≡◌, ◌<◌, length, slice_get, Some};

use crate::history::{History, Round};
use crate::parts::Start;
use std::marker::Model;

/// What the refiner answers.
#[derive(Drop)]
pub struct Refined {
    pub(crate) block_of: Vec<u32>,
    pub(crate) blocks: u32,
    pub(crate) start: Vec<Start>,
    pub(crate) history: History,
    pub(crate) scans: Vec<u32>,
    pub(crate) labels: u64,
}

impl Model for Refined {
    ghost use Rattle.refiner.specs.Recorded.{Answer};

    ghost Value = { Answer };

    ghost view = { λ r. record {
      block_of = r.block_of.items;
      blocks = r.blocks;
      start = r.start.items;
      rounds = r.history.rounds;
      scans = r.scans.items;
      labels = r.labels;
    } };
}

impl Refined {
    /// The last block of each state.
    pub fn block_of(&self) -> &[u32]
        ensures { result.now ≡ self.now.block_of }
    {
        self.block_of.as_slice()
    }

    /// The last block of each state, where nothing else is wanted any more.
    pub fn into_block_of(self) -> Vec<u32>
        ensures { result.items ≡ self.block_of }
    {
        let Refined { block_of, .. } = self;
        block_of
    }

    /// How many blocks there are. They are the numbers below it.
    pub fn blocks(&self) -> u32
        ensures { result ≡ self.now.blocks }
    {
        self.blocks
    }

    /// The blocks before the first round.
    pub fn start(&self) -> &[Start]
        ensures { result.now ≡ self.now.start }
    {
        self.start.as_slice()
    }

    /// How many rounds there were.
    pub fn rounds(&self) -> usize
        ensures { result ≡ length self.now.rounds }
    {
        self.history.rounds()
    }

    /// The round at a place, which counts from 0.
    pub fn round(&self, k: usize) -> Round<'_>
        requires { k < length self.now.rounds }
        ensures { slice_get self.now.rounds k ≡ Some (record {
          splitter = result.splitter;
          coarse = result.coarse;
          inner = result.inner;
          outer = result.outer;
          splits = result.splits;
        }) }
    {
        self.history.round(k)
    }

    /// In how many rounds each state stood in the splitter.
    pub fn scans(&self) -> &[u32]
        ensures { result.now ≡ self.now.scans }
    {
        self.scans.as_slice()
    }

    /// How many labels were counted.
    pub fn labels(&self) -> u64
        ensures { result ≡ self.now.labels }
    {
        self.labels
    }
}
