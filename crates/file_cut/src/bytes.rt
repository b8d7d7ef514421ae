//! What stands at the front of bytes: blanks, bytes of a word, bytes of a line.
ghost use Rattle.std.specs.Prelude.{◌≡◌, ◌≤◌, length};
ghost use Rattle.std.specs.List.{prefix_len};
ghost use Rattle.file_cut.specs.Bytes.{is_blank, is_word_byte as is_of_word};
ghost use Rattle.file_cut.specs.Lines.{is_no_feed};

use bstr::ByteSlice;

/// Whether the byte may stand in a word.
pub fn is_word_byte(byte: u8) -> bool
    ensures { result ≡ is_of_word byte }
{
    byte.is_ascii_alphanumeric()
        || matches!(
            byte,
            b'_' | b'\'' | b'.' | b'-' | b'/' | b'@' | b'$' | b'!' | b'?'
        )
        || byte >= 0x80
}

/// How many blanks stand at the front.
pub fn blank_len(text: &[u8]) -> usize
    ensures len { result ≡ prefix_len is_blank text.now }
    ensures within { result ≤ length text.now }
{
    match text.find_not_byteset(b" \t".as_slice()) {
        Some(place) => place,
        None => text.len(),
    }
}

/// How many bytes of a word stand at the front.
pub fn word_len(text: &[u8]) -> usize
    ensures len { result ≡ prefix_len is_of_word text.now }
    ensures within { result ≤ length text.now }
{
    text.iter().take_while(|byte| is_word_byte(**byte)).count()
}

/// How many bytes stand before the first line feed, or before the end where there is none.
pub fn line_len(text: &[u8]) -> usize
    ensures len { result ≡ prefix_len is_no_feed text.now }
    ensures within { result ≤ length text.now }
{
    match text.find_byte(b'\n') {
        Some(place) => place,
        None => text.len(),
    }
}
