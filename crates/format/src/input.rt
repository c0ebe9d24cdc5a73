ghost use Rattle.std.specs.Prelude.{◌≡◌, length};
ghost use Rattle.format.specs.Input.{input_read, input_written};

use crate::patterns::read_pattern;
use crate::texts::read_text;
use pattern::{Pattern, Refusal};

// A pattern, and how many words of a text were written beside it: the words stand in a list that the caller lends, C's too.
#[derive(Clone, Copy)]
pub struct Input {
    pub words: usize,
    pub pattern: Pattern,
}

// Reads a pattern and a text: the text's words go to the start of `words`.
pub fn read_input(pattern: &[u8], text: &[u8], words: &mut [u16]) -> Result<Input, Refusal>
    ensures { (result ≡ input_read pattern.now text.now (length words.old)) × (words.new ≡ input_written pattern.now text.now words.old) }
{
    if crate::FILE < pattern.len() {
        return Err(Refusal::FileLength);
    }
    if crate::FILE < text.len() {
        return Err(Refusal::FileLength);
    }
    let pattern = read_pattern(pattern)?;
    let words = read_text(text, words)?;
    Ok(Input { words, pattern })
}
