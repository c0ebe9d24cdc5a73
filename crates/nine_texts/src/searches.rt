// Searches from the start, from the end, and from each row of the front and back lists.
use crate::cases::padded;
use crate::score::{Score, number_of};
use crate::tables::Case;
use pattern::Refusal;
use std::io;

// 1 for an occurrence, 0 for none, or the refusal as a number.
pub fn found_number(found: Result<Option<[u16; 16]>, Refusal>) -> u64 {
    number_of(found.map(|places| u64::from(places.is_some())))
}

// The occurrence's places, or zeros: a list is checked for each search, whatever it answers.
pub fn found_places(found: Result<Option<[u16; 16]>, Refusal>) -> [u16; 16] {
    found.unwrap_or(None).unwrap_or([0u16; 16])
}

// One search's answer: this row, or none.
fn check_search(
    rt: &impl Print,
    score: Score,
    row: Option<&[u16]>,
    found: Result<Option<[u16; 16]>, Refusal>,
) -> io::Result<Score> {
    let expected = padded(row.unwrap_or(&[]));
    score
        .number(rt, u64::from(row.is_some()), found_number(found))?
        .list(rt, &expected, &found_places(found))
}

// Search number k of the front list: from row k, counted from 1, or from zeros, to the row after it.
fn search_forward(rt: &impl Print, score: Score, case: Case, k: usize) -> io::Result<Score> {
    let pattern = case.pattern();
    let zeros = [0u16; 4];
    let start = &zeros[..pattern.count.min(4)];
    let marks = match k.checked_sub(1).and_then(|r| case.front.get(r)) {
        Some(row) => *row,
        None => start,
    };
    let found = matching::first_after(pattern, case.words, marks);
    check_search(rt, score, case.front.get(k).copied(), found)
}

// Search number k of the back list: from row k, counted from 0, or from marks past every place, to the row before it.
fn search_backward(rt: &impl Print, score: Score, case: Case, k: usize) -> io::Result<Score> {
    let pattern = case.pattern();
    let far = [65535u16; 4];
    let end = &far[..pattern.count.min(4)];
    let marks = case.back.get(k).copied().unwrap_or(end);
    let found = matching::last_before(pattern, case.words, marks);
    let row = k.checked_sub(1).and_then(|r| case.back.get(r));
    check_search(rt, score, row.copied(), found)
}

// The searches of a text: one more in each direction than there are rows.
pub fn check_searches(rt: &impl Print, score: Score, case: Case) -> io::Result<Score> {
    let rows = case.front.len();
    let searches = (rows as u64).wrapping_add(1).wrapping_mul(2);
    print!(rt; " searches {searches}")?;
    let mut checked = score;
    for k in 0..=rows {
        checked = search_forward(rt, checked, case, k)?;
        checked = search_backward(rt, checked, case, k)?;
    }
    Ok(checked)
}
