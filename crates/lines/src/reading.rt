// How a line is read from the bytes that begin with it.
ghost use Rattle.std.specs.Prelude.{◌≡◌, ◌≤◌, true, length, IfOk, OnOk};
ghost use Rattle.lines.specs.Lines.{feed_at, word_in, fields_of, line_of, Fits};

use crate::faults::LineFault;
use crate::fields::field;
use crate::line::Line;
use crate::words::Word;

// Whether the first line feed is the 29th byte.
fn framed(bytes: &[u8]) -> bool
    ensures is { result ≡ feed_at 28 bytes.now }
    ensures long { result ≡ true → 29 ≤ length bytes.now }
{
    if bytes.len() < 29 {
        return false;
    }
    !bytes[..28].contains(&b'\n') && bytes[28] == b'\n'
}

// The word of the line that the bytes begin with.
pub fn read_word(bytes: &[u8]) -> Result<Word, LineFault>
    ensures is { result ≡ word_in bytes.now }
    ensures long { OnOk result (29 ≤ length bytes.now) }
{
    match bytes.first_chunk() {
        Some(letters) if framed(bytes) => Word::try_from(letters),
        _ => Err(LineFault::Frame),
    }
}

// The line with that word and what the four fields hold.
pub fn read_fields(word: Word, bytes: &[u8]) -> Result<Line, LineFault>
    ensures is { result ≡ fields_of word bytes.now }
    ensures fits { IfOk result Fits }
{
    if bytes.len() < 29 {
        return Err(LineFault::Frame);
    }
    Ok(Line {
        word,
        one: field(&bytes[4..10])?,
        two: field(&bytes[10..16])?,
        three: field(&bytes[16..22])?,
        four: field(&bytes[22..28])?,
    })
}

// The line that the bytes begin with: its frame is judged first, then its word, then its fields.
pub fn read_line(bytes: &[u8]) -> Result<Line, LineFault>
    ensures { result ≡ line_of bytes.now }
{
    let word = read_word(bytes)?;
    read_fields(word, bytes)
}
