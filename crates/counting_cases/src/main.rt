// Cases of the tally, of the list of all occurrences and of the column at their limits: numbers about 2 ^ 64 and far over it, and the rows
// of the widest span.
#![tactic(auto)]

ghost use Rattle.std.specs.Prelude.{◌≤◌};

use pattern::{Pattern, Refusal};
use std::io;

// A pattern of n slots that take 7, with gaps from 0 to `high`.
fn sevens(n: usize, high: u16) -> Result<Pattern, Refusal> {
    let word = [7u16];
    let mut pattern = Pattern::new().with_slot(0, 0, false, &word)?;
    for _ in 1..n {
        pattern = pattern.with_slot(0, high, false, &word)?;
    }
    Ok(pattern)
}

// Writes the two halves of the tally. (The programs share no crate, so that each reads alone.)
fn show_tally(rt: &impl Print, pattern: Pattern, text: &[u16]) -> io::Result<()> {
    match counting::tally(pattern, text) {
        Ok(total) => {
            let (high, low) = counting::halves(total);
            println!(rt; "tally {high} {low}")
        }
        Err(why) => println!(rt; "{why}"),
    }
}

// Writes the numbers of a list in a line, each before a space. (The programs share no crate.)
fn show_list(rt: &impl Print, list: &[u16]) -> io::Result<()> {
    for x in list {
        print!(rt; "{x} ")?;
    }
    println!(rt; "")
}

// Writes what listing all occurrences answers, and the list then.
fn show_all(rt: &impl Print, pattern: Pattern, text: &[u16], list: &mut [u16]) -> io::Result<()> {
    match counting::all(pattern, text, list) {
        Ok(rows) => println!(rt; "rows {rows}")?,
        Err(why) => println!(rt; "{why}")?,
    }
    show_list(rt, list)
}

// The same with a list of `room` nines.
fn show_room(rt: &impl Print, pattern: Pattern, text: &[u16], room: usize) -> io::Result<()> {
    let mut list = [9u16; 640];
    if room <= 640 {
        return show_all(rt, pattern, text, &mut list[..room]);
    }
    Ok(())
}

// Writes what the call for the column answers.
fn show_starts(
    rt: &impl Print,
    pattern: Pattern,
    text: &[u16],
    list: &mut [u64],
) -> io::Result<()> {
    match counting::starts(pattern, text, list) {
        Ok(words) => println!(rt; "words {words}"),
        Err(why) => println!(rt; "{why}"),
    }
}

// Writes the halves of a word's number in the column.
fn show_number(rt: &impl Print, list: &[u64; 9016], word: usize) -> io::Result<()>
    requires { (1 ≤ word) × (word ≤ 4508) }
{
    let high = list[2 * word - 2];
    let low = list[2 * word - 1];
    print!(rt; "{high} {low}; ")
}

// Writes in a line the halves of words 1, 40, 41, 1000, 1001, 4489 to 4492 and 4506, and what stands after it.
fn show_numbers(rt: &impl Print, list: &[u64; 9016]) -> io::Result<()> {
    show_number(rt, list, 1)?;
    show_number(rt, list, 40)?;
    show_number(rt, list, 41)?;
    show_number(rt, list, 1000)?;
    show_number(rt, list, 1001)?;
    show_number(rt, list, 4489)?;
    show_number(rt, list, 4490)?;
    show_number(rt, list, 4491)?;
    show_number(rt, list, 4492)?;
    show_number(rt, list, 4506)?;
    show_number(rt, list, 4507)?;
    println!(rt; "")
}

// Writes what the call for the column answers with a list of `room` nines, and some of the numbers then.
fn show_column(rt: &impl Print, pattern: Pattern, text: &[u16], room: usize) -> io::Result<()> {
    let mut list = [9u64; 9016];
    if room <= 9016 {
        show_starts(rt, pattern, text, &mut list[..room])?;
    }
    show_numbers(rt, &list)
}

// Texts of sevens at the limits of the tally, of the list and of the column. The first is document 01's example of 9.
fn show_limits(rt: &impl Print, wide: Pattern, narrow: Pattern) -> io::Result<()> {
    let text = [7u16; 20000];
    show_tally(rt, wide, &text[..1000])?;
    show_tally(rt, wide, &text)?;
    show_room(rt, wide, &text[..1000], 640)?;
    show_column(rt, wide, &text[..1000], 2000)?;
    show_tally(rt, narrow, &text[..4506])?;
    show_tally(rt, narrow, &text[..4507])?;
    show_column(rt, narrow, &text[..4506], 9016)?;
    show_column(rt, narrow, &text[..4506], 9012)?;
    show_column(rt, narrow, &text[..4506], 9011)?;
    show_column(rt, narrow, &text[..4506], 4506)?;
    show_column(rt, narrow, &text[..4507], 9016)?;
    let longest = wide.with_span(961, 961);
    show_tally(rt, longest, &text[..1000])?;
    show_room(rt, longest, &text[..1000], 640)?;
    show_room(rt, longest, &text[..1000], 639)?;
    show_column(rt, longest, &text[..1000], 9016)?;
    show_tally(rt, Pattern::new(), &text)
}

// The widest gaps, and narrower ones.
fn main(rt: HostRuntime) -> io::Result<()> {
    match (sevens(16, 63), sevens(16, 10)) {
        (Ok(wide), Ok(narrow)) => show_limits(&rt, wide, narrow),
        (Err(why), _) | (_, Err(why)) => println!(rt; "{why}"),
    }
}
