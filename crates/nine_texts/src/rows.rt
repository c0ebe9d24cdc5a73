// The test and the excerpt of rows.
use crate::score::{Score, number_of};
use crate::tables::Case;
use std::io;

// The words from the row's first place to its last, or nothing where there are no such words, as an excerpt is.
fn part<'a>(text: &'a [u16], row: &[u16]) -> &'a [u16] {
    match (row.first(), row.last()) {
        (Some(first), Some(last)) => text
            .get(usize::from(*first).wrapping_sub(1)..usize::from(*last))
            .unwrap_or(&[]),
        _ => &[],
    }
}

// Tests the row and compares its excerpt. (No plainer: two are what every check is handed, two what is expected, and the rest the call's.)
fn check_row(
    rt: &impl Print,
    score: Score,
    number: u64,
    expected: &[u16],
    row: &[u16],
    case: Case,
) -> io::Result<Score> {
    let pattern = case.pattern();
    let tested = number_of(excerpts::is_occurrence(pattern, case.words, row).map(u64::from));
    score
        .number(rt, number, tested)?
        .list(rt, expected, excerpts::excerpt(pattern, case.words, row))
}

// All occurrences of a text, each with an excerpt from its first place to its last, and the row that is none.
pub fn check_rows(rt: &impl Print, score: Score, case: Case) -> io::Result<Score> {
    let tests = (case.all.len() as u64).wrapping_add(1);
    print!(rt; " tests and excerpts {tests}")?;
    let mut checked = check_row(rt, score, 0, &[], case.none, case)?;
    for row in case.all {
        checked = check_row(rt, checked, 1, part(case.words, row), row, case)?;
    }
    Ok(checked)
}
