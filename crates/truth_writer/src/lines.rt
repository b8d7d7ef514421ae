//! The lines of one state.

use itoa::Buffer;
use std::alloc::{AllocError, Global};
use std::marker::Model;

/// Lines of one state, as one text.
#[derive(Drop)]
pub(crate) struct Lines {
    text: Vec<u8>,
}

impl Model for Lines {
    ghost use Rattle.std.specs.Prelude.{ℕ, List};

    ghost Value = { List ℕ };

    ghost view = { λ lines. lines.text.items };
}

impl Lines {
    ghost use Rattle.std.specs.Prelude.{◌≡◌, [], ◌∷◌, ◌++◌, OnOk};
    ghost use Rattle.file_cut.specs.Bytes.{space, line_feed};
    ghost use Rattle.formula_text.specs.Answers.{formula_name as name_of};
    ghost use Rattle.truth_writer.specs.Truths.{truth_word, truth_line};

    /// No line.
    pub(crate) fn new(alloc: Global) -> Lines
        ensures none { result ≡ [] }
    {
        Lines {
            text: Vec::new(alloc),
        }
    }

    /// Puts the line that tells a truth of formula k last.
    pub(crate) fn put(&mut self, word: &str, k: u32, truth: bool) -> Result<(), AllocError>
        ensures line_is_last { OnOk result (self.new ≡ self.old ++ truth_line word.now k truth) }
    {
        self.text.extend_from_slice(word.as_bytes())?;
        self.text.extend_from_slice(b" f")?;
        self.text
            .extend_from_slice(Buffer::new().format(k).as_bytes())?;
        self.text
            .extend_from_slice(if truth { b" true\n" } else { b" false\n" })?;
        Ok(())
    }

    /// The text of the lines.
    pub(crate) fn as_slice(&self) -> &[u8]
        ensures text { result.now ≡ self.now }
    {
        self.text.as_slice()
    }
}
