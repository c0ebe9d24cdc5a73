// Writing a pattern as a file. The list and the place go from writer to writer, as the writers of `basics` take and promise them (`Writes`).
ghost use Rattle.std.specs.Prelude.{◌≡◌, map, [], ◌∷◌, ◌≤◌, length, take};
ghost use Rattle.basics.specs.Writing.{Writes};
ghost use Rattle.pattern.specs.Typed.{Typed};
ghost use Rattle.format.specs.Shown.{digits, closed, joined, mark_text, slot_text, paper_order};
ghost use Rattle.printing.specs.Printed.{line_of, lines_of, pattern_text, most_printed, pattern_printed, pattern_written};
ghost use Rattle.printing.specs.Steps.Printing.{word_text};

use crate::PATTERN_FILE;
use basics::{put_byte, put_bytes, put_number, put_value};
use pattern::{Pattern, Refusal, Slot};

// Writes word number i, counted from 0, with a comma before all but the first.
fn put_word(out: &mut [u8], at: usize, i: usize, word: u16) -> usize
    ensures { Writes (word_text i word) out.old at out.new result }
{
    let next = if i == 0 { at } else { put_byte(out, at, b',') };
    put_number(out, next, u64::from(word))
}

// Writes the first `count` of the words.
fn put_words(out: &mut [u8], at: usize, words: &[u16], count: usize) -> usize
    ensures { Writes (joined (map digits (take count words.now)) 44) out.old at out.new result }
{
    let stated = &words[..count.min(words.len())];
    let mut next = at;
    for (i, word) in stated.iter().enumerate() {
        next = put_word(out, next, i, *word);
    }
    next
}

// Writes the mark of an excluding slot.
fn put_mark(out: &mut [u8], at: usize, excluding: bool) -> usize
    ensures { Writes (mark_text excluding) out.old at out.new result }
{
    if excluding {
        put_byte(out, at, b'!')
    } else {
        at
    }
}

// Writes the line of a slot.
fn put_slot(out: &mut [u8], at: usize, slot: Slot) -> usize
    ensures { Writes (closed (slot_text paper_order (line_of slot) ∷ [])) out.old at out.new result }
{
    let high = put_value(out, at, u64::from(slot.low), b' ');
    let mark = put_value(out, high, u64::from(slot.high), b' ');
    let listed = put_mark(out, mark, slot.excluding);
    let end = put_words(out, listed, &slot.words, slot.count);
    put_byte(out, end, b'\n')
}

// Writes the lines of all slots.
fn put_slots(out: &mut [u8], at: usize, pattern: Pattern) -> usize
    requires { pattern.count ≤ 16 }
    ensures { Writes (closed (map (slot_text paper_order) (lines_of pattern))) out.old at out.new result }
{
    let mut next = at;
    for slot in &pattern.slots[..pattern.count] {
        next = put_slot(out, next, *slot);
    }
    next
}

// Writes the whole file.
fn put_pattern(out: &mut [u8], pattern: Pattern) -> usize
    requires { pattern.count ≤ 16 }
    ensures { Writes (pattern_text pattern) out.old 0 out.new result }
{
    let values = put_bytes(out, 0, b"least most\n");
    let most = put_value(out, values, u64::from(pattern.least), b' ');
    let names = put_value(out, most, u64::from(pattern.most), b'\n');
    let slots = put_bytes(out, names, b"low high words\n");
    put_slots(out, slots, pattern)
}

// Writes a pattern as a file, where there is room for all of it; a list that is too short is refused with place 0, as `pattern_printed` has it.
// What its type says of the pattern is what the laws on files ask (`Typed`), and `PATTERN_FILE` is the size that no accepted pattern's file
// exceeds.
pub fn write_pattern(pattern: Pattern, out: &mut [u8]) -> Result<usize, Refusal>
    ensures value { result ≡ pattern_printed pattern (length out.old) }
    ensures out_after { out.new ≡ pattern_written pattern out.old }
    ensures typed { Typed pattern }
    ensures most_printed_value { most_printed ≡ PATTERN_FILE }
{
    pattern.check()?;
    let mut file = [0u8; PATTERN_FILE];
    let n = put_pattern(&mut file, pattern);
    if out.len() < n {
        return Err(Refusal::ListLength(0));
    }
    out[..n].copy_from_slice(&file[..n]);
    Ok(n)
}
