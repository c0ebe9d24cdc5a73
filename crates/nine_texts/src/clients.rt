// The cursors of several clients, on text 1.
use crate::cases::padded;
use crate::score::Score;
use crate::searches::{found_number, found_places};
use crate::tables::{Asked, Call, Case, FROM_499, FROM_FRESH};
use cursors::{Client, Cursors};
use pattern::{Pattern, Refusal};
use std::io;

// Makes the call: an enum says which, since a table of constants names it.
fn call(
    cursors: &mut Cursors,
    call: Call,
    pattern: Pattern,
    text: &[u16],
) -> Result<Option<[u16; 16]>, Refusal> {
    match call.asked {
        Asked::Next => cursors.next(call.client, pattern, text),
        Asked::Rewind => {
            cursors.rewind(call.client)?;
            Ok(None)
        }
    }
}

// The row that the call gives, with zeros after it.
fn given(case: Case, row: Option<usize>) -> [u16; 16] {
    match row.and_then(|r| case.front.get(r)) {
        Some(row) => padded(row),
        None => [0u16; 16],
    }
}

// The number that each client was served then.
fn check_numbers(rt: &impl Print, score: Score, call: Call, after: &Cursors) -> io::Result<Score> {
    let mut checked = score;
    for (served, client) in call.served.iter().zip(&after.clients) {
        checked = checked.number(rt, *served as u64, client.served as u64)?;
    }
    Ok(checked)
}

// The calls, one after the other from a state: each one's answer, and the numbers served then.
fn check_calls(
    rt: &impl Print,
    score: Score,
    case: Case,
    start: Cursors,
    calls: &[Call],
) -> io::Result<Score> {
    let pattern = case.pattern();
    let mut cursors = start;
    let mut checked = score;
    for asked in calls {
        let answer = call(&mut cursors, *asked, pattern, case.words);
        checked = checked
            .number(rt, asked.answer, found_number(answer))?
            .list(rt, &given(case, asked.given), &found_places(answer))?;
        checked = check_numbers(rt, checked, *asked, &cursors)?;
    }
    Ok(checked)
}

// A fresh state, except that client 3 was served so many.
fn third_served(served: usize) -> Cursors {
    let mut cursors = Cursors::new();
    cursors.clients[2] = Client {
        marks: [0u16; 16],
        served,
    };
    cursors
}

// Calls from a fresh state, and calls from one in which client 3 may be served once more.
pub fn check_clients(rt: &impl Print, score: Score, case: Case) -> io::Result<Score> {
    let fresh = check_calls(rt, score, case, Cursors::new(), &FROM_FRESH)?;
    check_calls(rt, fresh, case, third_served(499), &FROM_499)
}
