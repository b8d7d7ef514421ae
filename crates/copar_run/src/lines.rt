//! The lines that say why a run has no whole output.
ghost use Rattle.std.specs.Prelude.{◌≡◌, ◌≢◌, ◌≤◌, ℕ, List, [], true, false, ◌++◌, take, codes, decimal};
ghost use Rattle.std.specs.Io.KnownBytes.{append_known};
ghost use Rattle.copar_run.specs.Outcome.{IsQuiet, Outside, counts, is_end};
ghost use Rattle.copar_run.specs.Lines.{IsLine, IsToldOn, told_line, stranger_line, ending_of};

use crate::Status;
use crate::ended::Ended;
use command_line::{WordList, complaint};
use itoa::Buffer;
use outside::{Sink, put_all};
use std::alloc::Global;
use typing::TypeKind;

/// Says on `err` how a run on these words ended, if it did not end well.
pub(crate) fn tell<E: Sink>(alloc: Global, err: &mut E, words: &WordList, ended: &Ended)
    ensures told { (o : Outside) → (is_end ended.now.status ≡ false →
        ended.now.status ≢ Status.Usage →
        IsLine words.now o ended.now.status (told_line ended.now.status ended.now.word.now)) →
        IsToldOn words.now o ended.now.status (E.taken err.old) (E.taken err.new)
        (counts (E.faults err.old) (E.faults err.new)) }
    ensures no_line { is_end ended.now.status ≡ true → err.new ≡ err.old }
    ensures no_count_falls { E.faults err.old ≤ E.faults err.new }
{
    match ended.status {
        Status::Usage => put_usage(alloc, err, words),
        _ => put_line(err, ended),
    }
}

/// Writes what is wrong with words that make no request, the forms that are taken, and an example.
fn put_usage<E: Sink>(alloc: Global, err: &mut E, words: &WordList)
    ensures some_text { IsQuiet (E.faults err.old) (E.faults err.new) →
        (text : List ℕ) × (text ≢ [])
        × (E.taken err.new ≡ append_known (E.taken err.old) text) }
    ensures no_count_falls { E.faults err.old ≤ E.faults err.new }
{
    match complaint(alloc, words) {
        Ok(text) => put_some(err, text.as_bytes()),
        Err(_) => put_some(err, b""),
    }
}

/// Writes a text, or a short one in place of no byte.
fn put_some<E: Sink>(err: &mut E, text: &[u8])
    ensures some_text { IsQuiet (E.faults err.old) (E.faults err.new) →
        (some : List ℕ) × (some ≢ [])
        × (E.taken err.new ≡ append_known (E.taken err.old) some) }
    ensures no_count_falls { E.faults err.old ≤ E.faults err.new }
{
    if text.is_empty() {
        put_text(
            err,
            b"copar: these words ask for nothing; no memory to say more\n",
        );
    } else {
        put_text(err, text);
    }
}

/// Writes the line of a status, in pieces and without memory. A fault of the sink ends the line.
pub(crate) fn put_line<E: Sink>(err: &mut E, ended: &Ended)
    ensures whole { IsQuiet (E.faults err.old) (E.faults err.new) → E.taken err.new
        ≡ append_known (E.taken err.old) (told_line ended.now.status ended.now.word.now) }
    ensures front { (n : ℕ) × (E.taken err.new ≡ append_known (E.taken err.old)
        (take n (told_line ended.now.status ended.now.word.now))) }
    ensures no_count_falls { E.faults err.old ≤ E.faults err.new }
    ensures no_call_when_done { is_end ended.now.status ≡ true → err.new ≡ err.old }
{
    match ended.status {
        Status::Done => put_text(err, b""),
        Status::No => put_text(err, b""),
        Status::Usage => put_text(err, b""),
        Status::Grammar { line } => {
            put_numbered(err, b"copar: grammar fault on line ", line, b"\n")
        }
        Status::TypeFault { line, kind } => put_numbered(
            err,
            b"copar: type fault on line ",
            line,
            ending(kind),
        ),
        Status::WeightBound { line } => {
            put_numbered(err, b"copar: weight bound on line ", line, b"\n")
        }
        Status::SumFault { line } => {
            put_numbered(err, b"copar: distribution sum on line ", line, b"\n")
        }
        Status::UnknownState { place: _ } => put_stranger(err, ended.word),
        Status::AnswerText { line } => {
            put_numbered(err, b"copar: answer text on line ", line, b"\n")
        }
        Status::ReadFault => put_text(err, b"copar: read fault\n"),
        Status::WriteFault => put_text(err, b"copar: write fault\n"),
        Status::NoMemory => put_text(err, b"copar: no memory\n"),
        Status::TooLong => put_text(err, b"copar: file longer than 67108864 bytes\n"),
    }
}

/// How the line of a type fault ends.
fn ending(kind: TypeKind) -> &'static [u8]
    ensures { result.now ≡ ending_of kind }
{
    match kind {
        TypeKind::UnknownState => b": unknown state\n",
        TypeKind::NotALabel => b": not a label\n",
        TypeKind::WrongShape => b": wrong shape\n",
        TypeKind::WrongCount => b": wrong count\n",
        TypeKind::RepeatedKey => b": repeated key\n",
        TypeKind::MissingKey => b": missing key\n",
        TypeKind::BadIndex => b": bad index\n",
        TypeKind::NotANumber => b": not a number\n",
        TypeKind::Negative => b": negative\n",
        TypeKind::RepeatedState => b": repeated state\n",
    }
}

/// Writes a text.
fn put_text<E: Sink>(err: &mut E, text: &[u8])
    ensures whole { IsQuiet (E.faults err.old) (E.faults err.new) →
        E.taken err.new ≡ append_known (E.taken err.old) text.now }
    ensures front { (n : ℕ) ×
        (E.taken err.new ≡ append_known (E.taken err.old) (take n text.now)) }
    ensures no_count_falls { E.faults err.old ≤ E.faults err.new }
    ensures no_call_for_no_byte { text.now ≡ [] → err.new ≡ err.old }
{
    let _whole = put_all(err, text);
}

/// Writes three texts, one behind the other.
fn put_three<E: Sink>(err: &mut E, first: &[u8], second: &[u8], third: &[u8])
    ensures whole { IsQuiet (E.faults err.old) (E.faults err.new) → E.taken err.new
        ≡ append_known (E.taken err.old) (first.now ++ second.now ++ third.now) }
    ensures front { (n : ℕ) × (E.taken err.new
        ≡ append_known (E.taken err.old) (take n (first.now ++ second.now ++ third.now))) }
    ensures no_count_falls { E.faults err.old ≤ E.faults err.new }
{
    if !put_all(err, first) {
        return;
    }
    if !put_all(err, second) {
        return;
    }
    put_text(err, third);
}

/// Writes a text, a number and what ends the line.
fn put_numbered<E: Sink>(err: &mut E, text: &[u8], number: u32, ending: &[u8])
    ensures whole { IsQuiet (E.faults err.old) (E.faults err.new) →
        E.taken err.new
        ≡ append_known (E.taken err.old) (text.now ++ decimal number ++ ending.now) }
    ensures front { (n : ℕ) × (E.taken err.new
        ≡ append_known (E.taken err.old) (take n (text.now ++ decimal number ++ ending.now))) }
    ensures no_count_falls { E.faults err.old ≤ E.faults err.new }
{
    let mut buffer = Buffer::new();
    put_three(err, text, buffer.format(number).as_bytes(), ending);
}

/// Writes the line of a word that names no state.
fn put_stranger<E: Sink>(err: &mut E, word: &str)
    ensures whole { IsQuiet (E.faults err.old) (E.faults err.new) →
        E.taken err.new ≡ append_known (E.taken err.old) (stranger_line word.now) }
    ensures front { (n : ℕ) ×
        (E.taken err.new ≡ append_known (E.taken err.old) (take n (stranger_line word.now))) }
    ensures no_count_falls { E.faults err.old ≤ E.faults err.new }
{
    put_three(err, b"copar: unknown state ", word.as_bytes(), b"\n");
}
