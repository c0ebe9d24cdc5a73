ghost use Rattle.std.specs.Prelude.{◌≡◌, ◌≤◌, length};
ghost use Rattle.pattern.specs.Tests.{input_verdict};
ghost use Rattle.matching.specs.Lists.{leftmost, leftmost_in};
ghost use Rattle.basics.specs.Written.{written};
ghost use Rattle.matching.specs.Answers.{listed, filled, front_listed, front_written, back_listed, back_written, counted, Best};
ghost use Rattle.matching.specs.Steps.Turning.{flip};
ghost use Rattle.matching.specs.Steps.Sides.{sight};
ghost use Rattle.matching.specs.Steps.Listing.{Faces, Room, shown_rows, stored};

use crate::mirror::turned;
use crate::side::Side;
use basics::put_row;
use pattern::{Pattern, Refusal};

// The pattern as it is searched: from the end where mirrored.
fn faced(pattern: &Pattern, mirrored: bool) -> Pattern
    requires { (1 ≤ pattern.now.count) × (pattern.now.count ≤ 16) }
    ensures { Faces mirrored pattern.now result }
{
    if mirrored { turned(pattern) } else { *pattern }
}

// How many rows search after search finds.
fn count_rows(side: &Side) -> usize
    ensures { (result ≡ length (leftmost_in side.now.pattern.now (sight side.now))) × (result ≤ 20000) }
{
    let mut last = [0u16; 16];
    let mut k = 0;
    // while: each search goes on from the row before, so the rows are not counted ahead.
    while side.follow(&mut last) {
        k += 1;
    }
    k
}

// Writes the rows that search after search finds, and says how many there are. It is the count above with a row stored at each step:
// one function for both would take the storing as a closure, and be no plainer.
fn write_rows(side: &Side, list: &mut [u16]) -> usize
    requires { Room side.now list.old }
    ensures value { (result ≡ length (leftmost_in side.now.pattern.now (sight side.now))) × (result ≤ 20000) }
    ensures list_after { list.new ≡ written side.now.pattern.now.count (leftmost_in side.now.pattern.now (sight side.now)) list.old }
{
    let m = side.pattern.count;
    let mut row = [0u16; 16];
    let mut k = 0;
    // while: each search goes on from the row before, as above.
    while side.follow(&mut row) {
        let at = k * m;
        put_row(&mut list[at..], &row, m);
        k += 1;
    }
    k
}

// Turns the entries round, each a place counted from the other end of a text of n words.
fn turn_back(list: &mut [u16], n: usize)
    requires { n ≤ 20000 }
    ensures { list.new ≡ flip n list.old }
{
    list.reverse();
    for place in list.iter_mut() {
        *place = (n + 1).saturating_sub(*place as usize) as u16;
    }
}

// Writes the list where its rows have room.
fn store(side: &Side, list: &mut [u16]) -> usize
    requires { Room side.now list.old }
    ensures value { result ≡ length (leftmost_in side.now.pattern.now (sight side.now)) }
    ensures list_after { list.new ≡ written side.now.pattern.now.count (shown_rows side.now.mirrored (length side.now.text.now) (leftmost_in side.now.pattern.now (sight side.now))) list.old }
{
    let m = side.pattern.count;
    let rows = write_rows(side, list);
    if side.mirrored {
        turn_back(&mut list[..rows * m], side.text.len());
    }
    rows
}

// Either list: as many rows as the text has words always have room, else they are counted first.
fn fill(pattern: Pattern, text: &[u16], mirrored: bool, list: &mut [u16]) -> Result<usize, Refusal>
    ensures value { result ≡ listed (input_verdict pattern (length text.now)) pattern.count (stored mirrored pattern text.now) (length list.old) }
    ensures list_after { list.new ≡ filled (input_verdict pattern (length text.now)) pattern.count (stored mirrored pattern text.now) list.old }
{
    let n = text.len();
    pattern.check_with(n)?;
    let m = pattern.count;
    let faced = faced(&pattern, mirrored);
    let side = Side {
        pattern: &faced,
        text,
        mirrored,
    };
    if n * m <= list.len() {
        return Ok(store(&side, list));
    }
    let rows = count_rows(&side);
    if list.len() < rows * m {
        return Err(Refusal::ListLength(rows));
    }
    Ok(store(&side, list))
}

// The front list: each row the earliest occurrence past the row before.
pub fn leftmost(pattern: Pattern, text: &[u16], list: &mut [u16]) -> Result<usize, Refusal>
    ensures value { result ≡ front_listed pattern text.now (length list.old) }
    ensures list_after { list.new ≡ front_written pattern text.now list.old }
    ensures best { Best pattern text.now }
{
    fill(pattern, text, false, list)
}

// The back list, its earliest row first: each row, from the last, the latest occurrence before the row after it.
pub fn rightmost(pattern: Pattern, text: &[u16], list: &mut [u16]) -> Result<usize, Refusal>
    ensures value { result ≡ back_listed pattern text.now (length list.old) }
    ensures list_after { list.new ≡ back_written pattern text.now list.old }
    ensures best { Best pattern text.now }
{
    fill(pattern, text, true, list)
}

// The count alone (document 01: count): the size of a largest nonoverlapping set of occurrences.
pub fn support(pattern: Pattern, text: &[u16]) -> Result<usize, Refusal>
    ensures value { result ≡ counted (input_verdict pattern (length text.now)) (leftmost pattern text.now) }
    ensures best { Best pattern text.now }
{
    pattern.check_with(text.len())?;
    let side = Side {
        pattern: &pattern,
        text,
        mirrored: false,
    };
    Ok(count_rows(&side))
}
