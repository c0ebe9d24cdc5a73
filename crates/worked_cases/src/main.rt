// Runs the worked texts through the library: of each the count, the tally, the front list, the back list, all occurrences, and whether one
// row is an occurrence; of the last text also whether the four rows are that each fail one condition alone.
#![tactic(auto)]

mod cases;
mod show;
mod tables;

use pattern::{Pattern, Refusal};
use show::{show_list, show_number};
use std::io;
use tables::{CASES, Case, FAILING};

// Writes the two halves of the tally.
fn show_tally(rt: &impl Print, pattern: Pattern, text: &[u16]) -> io::Result<()> {
    match counting::tally(pattern, text) {
        Ok(total) => {
            let (high, low) = counting::halves(total);
            print!(rt; " tally {high} {low}")
        }
        Err(why) => print!(rt; " {why}"),
    }
}

// Writes what a list call answers: how many rows, and these rows, a line for each.
fn show_listed<F: FnOnce(Pattern, &[u16], &mut [u16]) -> Result<usize, Refusal>>(
    rt: &impl Print,
    name: &str,
    call: F,
    pattern: Pattern,
    text: &[u16],
) -> io::Result<()>
    requires { F.IsAlwaysCallable call }
{
    let mut list = [9u16; 40];
    match call(pattern, text, &mut list) {
        Ok(rows) => {
            println!(rt; "{name} {rows}")?;
            for row in list.chunks(pattern.count.max(1)).take(rows) {
                show_list(rt, row)?;
                println!(rt; "")?;
            }
            Ok(())
        }
        Err(why) => println!(rt; "{name} {why}"),
    }
}

// Writes a row and whether it is an occurrence.
fn show_row(rt: &impl Print, pattern: Pattern, text: &[u16], row: &[u16]) -> io::Result<()> {
    print!(rt; "row")?;
    show_list(rt, row)?;
    match excerpts::is_occurrence(pattern, text, row) {
        Ok(true) => println!(rt; ": yes"),
        Ok(false) => println!(rt; ": no"),
        Err(why) => println!(rt; " {why}"),
    }
}

// A text with its number, counted from 1.
fn show_text(rt: &impl Print, number: usize, case: Case) -> io::Result<()> {
    let pattern = case.pattern();
    let text = case.words;
    print!(rt; "text {number}:")?;
    show_number(rt, "count", matching::support(pattern, text))?;
    show_tally(rt, pattern, text)?;
    println!(rt; "")?;
    show_listed(
        rt,
        "front",
        |p, t, l| matching::leftmost(p, t, l),
        pattern,
        text,
    )?;
    show_listed(
        rt,
        "back",
        |p, t, l| matching::rightmost(p, t, l),
        pattern,
        text,
    )?;
    show_listed(rt, "all", |p, t, l| counting::all(p, t, l), pattern, text)?;
    show_row(rt, pattern, text, case.row)
}

// The rows of the last text that fail one condition alone.
fn show_failing(rt: &impl Print) -> io::Result<()> {
    let case = CASES[22];
    for row in FAILING {
        show_row(rt, case.pattern(), case.words, row)?;
    }
    Ok(())
}

// Runs the texts.
fn main(rt: HostRuntime) -> io::Result<()> {
    for (k, case) in CASES.iter().enumerate() {
        show_text(&rt, k + 1, *case)?;
    }
    show_failing(&rt)
}
