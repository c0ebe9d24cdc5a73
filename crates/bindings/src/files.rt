ghost use Rattle.std.specs.Prelude.{◌≡◌, min, length};
ghost use Rattle.format.specs.Input.{input_read, input_written};
ghost use Rattle.format.specs.Lines.{line_at};
ghost use Rattle.format.specs.Patterns.{pattern_read};
ghost use Rattle.printing.specs.Printed.{pattern_printed, pattern_written};
ghost use Rattle.format.specs.Texts.{text_read, text_written};
ghost use Rattle.basics.specs.Writing.{overlaid};
ghost use Rattle.report.specs.Report.{reported};
ghost use Rattle.pattern.specs.Patterns.{empty_pattern};
ghost use Rattle.bindings.specs.Answers.{of_number, pattern_or, of_input, of_line};
ghost use Rattle.bindings.specs.Counts.{count_in, count_of};

use crate::answers::{Answer, LineEnds, Made, ReadBoth};
use pattern::{Pattern, Refusal};

// The count for two files, with room for every text within the limit.
fn count_in(pattern: &[u8], text: &[u8], words: &mut [u16]) -> Result<usize, Refusal>
    requires { length words.old ≡ 20000 }
    ensures { result ≡ count_in pattern.now text.now }
{
    let input = format::read_input(pattern, text, words)?;
    matching::support(input.pattern, &words[..input.words])
}

// The count for a pattern file and a text file, or 100,000 plus the refusal's number: one number, as the C interface has it.
#[unsafe(no_mangle)]
pub extern "C" fn bedbloomer_count(pattern: &[u8], text: &[u8]) -> u32
    ensures { result ≡ count_of pattern.now text.now }
{
    let mut words = [0u16; 20000];
    match count_in(pattern, text, &mut words) {
        Ok(count) => count as u32,
        Err(why) => 100000 + why.number(),
    }
}

// The bytes that the program prints for this input, as many as `out` holds: how many were written.
#[unsafe(no_mangle)]
pub extern "C" fn bedbloomer_report(input: &[u8], out: &mut [u8]) -> usize
    ensures { (result ≡ min (length (reported input.now)) (length out.old)) × (out.new ≡ overlaid (reported input.now) out.old) }
{
    report::report(input, out)
}

// Reads a pattern file.
#[unsafe(no_mangle)]
pub extern "C" fn bedbloomer_read_pattern(bytes: &[u8]) -> Made
    ensures { result ≡ pattern_or empty_pattern (pattern_read bytes.now) }
{
    Made::or(format::read_pattern(bytes), Pattern::new())
}

// Reads a text file into the start of `words`: how many there are.
#[unsafe(no_mangle)]
pub extern "C" fn bedbloomer_read_text(bytes: &[u8], words: &mut [u16]) -> Answer
    ensures value { result ≡ of_number (text_read bytes.now (length words.old)) }
    ensures words_after { words.new ≡ text_written bytes.now words.old }
{
    format::read_text(bytes, words).into()
}

// Reads both files in one call; the text's words go to the start of `words`.
#[unsafe(no_mangle)]
pub extern "C" fn bedbloomer_read_input(pattern: &[u8], text: &[u8], words: &mut [u16]) -> ReadBoth
    ensures value { result ≡ of_input (input_read pattern.now text.now (length words.old)) }
    ensures words_after { words.new ≡ input_written pattern.now text.now words.old }
{
    format::read_input(pattern, text, words).into()
}

// Writes a pattern as a file to the start of `out`: how many bytes.
#[unsafe(no_mangle)]
pub extern "C" fn bedbloomer_write_pattern(pattern: Pattern, out: &mut [u8]) -> Answer
    ensures value { result ≡ of_number (pattern_printed pattern (length out.old)) }
    ensures out_after { out.new ≡ pattern_written pattern out.old }
{
    printing::write_pattern(pattern, out).into()
}

// The line that begins at a place of the bytes.
#[unsafe(no_mangle)]
pub extern "C" fn bedbloomer_line(bytes: &[u8], at: usize) -> LineEnds
    ensures { result ≡ of_line (line_at bytes.now at) }
{
    format::line_at(bytes, at).into()
}
