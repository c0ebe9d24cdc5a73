ghost use Rattle.std.specs.Prelude.{◌≡◌, map, ◌≤◌, length, Ok};
ghost use Rattle.basics.specs.Written.{over};
ghost use Rattle.format.specs.Bytes.{lines, decimal};
ghost use Rattle.format.specs.Steps.ValueLines.{word_lines};
ghost use Rattle.format.specs.Texts.{text_read, text_written};

use crate::lines::{count_lines, first_line};
use crate::numbers::{is_number, value};
use pattern::{Pattern, Refusal};

// Writes the words of the lines at the start of `out`.
fn write_words(s: &[u8], out: &mut [u16], m: usize)
    requires { (word_lines s.now ≡ Ok m) × (m ≤ length out.old) }
    ensures { out.new ≡ over out.old (map decimal (lines s.now)) }
{
    let mut rest = s;
    for word in &mut out[..m] {
        let Some((line, others)) = first_line(rest) else {
            return;
        };
        *word = value(line);
        rest = others;
    }
}

// Reads a text file (document 01: text sheet): its words go to the start of `words`.
pub fn read_text(bytes: &[u8], words: &mut [u16]) -> Result<usize, Refusal>
    ensures { (result ≡ text_read bytes.now (length words.old)) × (words.new ≡ text_written bytes.now words.old) }
{
    if crate::FILE < bytes.len() {
        return Err(Refusal::FileLength);
    }
    if bytes.is_empty() {
        return Ok(0);
    }
    let (name, rest) = first_line(bytes).ok_or(Refusal::Names(1))?;
    if name != b"word".as_slice() {
        return Err(Refusal::Names(1));
    }
    let count = count_lines(rest, 2, is_number)?;
    if Pattern::TEXT < count {
        return Err(Refusal::TextLength);
    }
    if words.len() < count {
        return Err(Refusal::WordListLength);
    }
    write_words(rest, words, count);
    Ok(count)
}
