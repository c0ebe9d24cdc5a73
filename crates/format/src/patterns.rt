ghost use Rattle.std.specs.Prelude.{◌≡◌, map, length};
ghost use Rattle.pattern.specs.Patterns.{first_slots};
ghost use Rattle.format.specs.Bytes.{lines, ended};
ghost use Rattle.format.specs.Patterns.{read_slot, made_slot, judged, shown_pattern, pattern_answer, from_slot_names, from_values, pattern_read};

use crate::fields::{column, part};
use crate::lines::{count_lines, first_line};
use crate::names::{Columns, columns_of, slot_names, span_names};
use crate::numbers::value;
use crate::values::{slot_of, slot_values, span_values};
use pattern::{Pattern, Refusal, Slot};

// The first sixteen of the slots that the lines show, and unused ones after them. By index: tried with `for slot in &mut slots`, and the proof
// didn't close, since at the break it has to know the slots with the lent one given back.
fn slots_in(s: &[u8], c: Columns) -> [Slot; 16]
    ensures { result ≡ first_slots (map made_slot (map (read_slot c) (lines s.now))) }
{
    let empty = Pattern::new();
    let mut slots = empty.slots;
    let mut rest = s;
    for k in 0..Pattern::SLOTS {
        let Some((line, others)) = first_line(rest) else {
            break;
        };
        slots[k] = slot_of(line, c);
        rest = others;
    }
    slots
}

// The pattern of n slot lines with these span limits, where it is accepted.
fn from_slots(s: &[u8], c: Columns, n: usize, least: u16, most: u16) -> Result<Pattern, Refusal>
    requires { n ≡ length (lines s.now) }
    ensures { result ≡ judged (shown_pattern least most (map (read_slot c) (lines s.now))) }
{
    let slots = slots_in(s, c);
    let pattern = Pattern {
        slots,
        count: n,
        least,
        most,
    };
    pattern.check()?;
    Ok(pattern)
}

// From the line of the slots' names on.
fn from_slot_names(s: &[u8], least: u16, most: u16) -> Result<Pattern, Refusal>
    ensures { result ≡ pattern_answer (from_slot_names (lines s.now) least most (ended s.now 10)) }
{
    let (names, rest) = first_line(s).ok_or(Refusal::Names(3))?;
    if !slot_names(names) {
        return Err(Refusal::Names(3));
    }
    let c = columns_of(names);
    let count = count_lines(rest, 4, |line| slot_values(line, c))?;
    from_slots(rest, c, count, least, most)
}

// From the line of the span limits on, with the columns of `least` and `most`.
fn from_values(s: &[u8], i: usize, j: usize) -> Result<Pattern, Refusal>
    ensures { result ≡ pattern_answer (from_values (lines s.now) i j (ended s.now 10)) }
{
    let (values, rest) = first_line(s).ok_or(Refusal::Values(2))?;
    if !span_values(values) {
        return Err(Refusal::Values(2));
    }
    let least = value(part(values, b' ', i));
    let most = value(part(values, b' ', j));
    from_slot_names(rest, least, most)
}

// Reads a pattern file (document 01: frame sheet).
pub fn read_pattern(bytes: &[u8]) -> Result<Pattern, Refusal>
    ensures { result ≡ pattern_read bytes.now }
{
    if crate::FILE < bytes.len() {
        return Err(Refusal::FileLength);
    }
    let (names, rest) = first_line(bytes).ok_or(Refusal::Names(1))?;
    if !span_names(names) {
        return Err(Refusal::Names(1));
    }
    let i = column(names, b"least");
    let j = column(names, b"most");
    from_values(rest, i, j)
}
