// Runs the nine texts of document 01 through the library and compares every answer with the tables.
#![tactic(auto)]

mod cases;
mod clients;
mod lists;
mod rows;
mod score;
mod searches;
mod tables;

use clients::check_clients;
use lists::check_lists;
use rows::check_rows;
use score::Score;
use searches::check_searches;
use std::io;
use tables::{CASES, Case};

// A text with its number, counted from 1: a line with what it comes to.
fn check_text(rt: &impl Print, score: Score, number: usize, case: Case) -> io::Result<Score> {
    print!(rt; "text {number}")?;
    let lists = check_lists(rt, score, case)?;
    let searches = check_searches(rt, lists, case)?;
    let rows = check_rows(rt, searches, case)?;
    rows.close(rt, score)?;
    Ok(rows)
}

// The cursors on text 1.
fn check_cursors(rt: &impl Print, score: Score) -> io::Result<Score> {
    let case = CASES[0];
    print!(rt; "cursors on text 1: calls 19")?;
    let clients = check_clients(rt, score, case)?;
    clients.close(rt, score)?;
    Ok(clients)
}

// Runs the texts, then the cursors, and prints how many checks there were and how many failed.
fn main(rt: HostRuntime) -> io::Result<()> {
    let mut score = Score::new();
    for (k, case) in CASES.iter().enumerate() {
        score = check_text(&rt, score, k + 1, *case)?;
    }
    score = check_cursors(&rt, score)?;
    println!(rt; "checks {} failed {}", score.done, score.failed)
}
