// The front list, the back list, the list of all occurrences, and how many rows these have.
ghost use Rattle.std.specs.Prelude.{◌<◌};

use crate::cases::first;
use crate::score::{Score, number_of};
use crate::tables::{Case, Rows};
use pattern::{Pattern, Refusal};
use std::io;

// What a list of nines should hold in the end, and how many of its entries are written: without a heap its length stands beside it.
#[derive(Clone, Copy)]
struct Wanted {
    list: [u16; 40],
    size: usize,
}

// Rows over the start of a list of nines, of which at least one is left.
fn filled(rows: Rows) -> Wanted
    ensures { result.size < 40 }
{
    let mut list = [9u16; 40];
    let mut size = 0;
    for row in rows {
        for place in *row {
            if size < 39 {
                list[size] = *place;
                size += 1;
            }
        }
    }
    Wanted { list, size }
}

// How many rows, or the refusal as a number.
fn rows_number(answer: Result<usize, Refusal>) -> u64 {
    number_of(answer.map(|rows| rows as u64))
}

// The refusal's place, and 0 where nothing is refused: a place is checked for each call, refused or not.
fn rows_place(answer: Result<usize, Refusal>) -> u64 {
    match answer {
        Ok(_) => 0,
        Err(why) => why.place() as u64,
    }
}

// What a list call answers, and the list then, of which it was lent `room` entries: without a heap the number stands beside it.
#[derive(Clone, Copy)]
struct Called {
    answer: Result<usize, Refusal>,
    list: [u16; 40],
    room: usize,
}

// The call with room for so many entries, all nines.
fn tried<F: Fn(Pattern, &[u16], &mut [u16]) -> Result<usize, Refusal>>(
    call: &F,
    pattern: Pattern,
    text: &[u16],
    room: usize,
) -> Called
    requires { F.IsAlwaysCallable call.now }
{
    let mut list = [9u16; 40];
    let room = room.min(40);
    let answer = call(pattern, text, &mut list[..room]);
    Called { answer, list, room }
}

// Checks what a call answers and leaves. The answer and its place are plain numbers: of a `Refusal` the library itself would say them.
fn check_called(
    rt: &impl Print,
    score: Score,
    number: u64,
    place: u64,
    list: &[u16],
    got: Called,
) -> io::Result<Score> {
    let left = got.list;
    let answered = score
        .number(rt, number, rows_number(got.answer))?
        .number(rt, place, rows_place(got.answer))?;
    answered.list(rt, first(list, got.room), first(&left, got.room))
}

// A list call with room for one entry more than its rows, which stays, and with room for one less, where it is refused, with this place, and
// all stay. (No plainer: the lists differ in name, call, rows and place.)
fn check_list<F: Fn(Pattern, &[u16], &mut [u16]) -> Result<usize, Refusal>>(
    rt: &impl Print,
    score: Score,
    name: &str,
    call: &F,
    case: Case,
    rows: Rows,
    place: usize,
) -> io::Result<Score>
    requires { F.IsAlwaysCallable call.now }
{
    let pattern = case.pattern();
    let wanted = filled(rows);
    let list = wanted.list;
    let long = tried(call, pattern, case.words, wanted.size + 1);
    let answered = rows_number(long.answer);
    print!(rt; "{name}{answered}")?;
    let written = check_called(rt, score, rows.len() as u64, 0, &list, long)?;
    if wanted.size == 0 {
        return Ok(written);
    }
    let short = tried(call, pattern, case.words, wanted.size - 1);
    check_called(rt, written, 100008, place as u64, &[9u16; 40], short)
}

// The count alone.
fn check_support(rt: &impl Print, score: Score, case: Case) -> io::Result<Score> {
    let got = rows_number(matching::support(case.pattern(), case.words));
    print!(rt; " support {got}")?;
    score.number(rt, case.front.len() as u64, got)
}

// The tally in halves: the high half is 0. (Of a refusal both are its number, as every check is of numbers.)
fn check_tally(rt: &impl Print, score: Score, case: Case) -> io::Result<Score> {
    let (high, low) = match counting::tally(case.pattern(), case.words) {
        Ok(total) => counting::halves(total),
        Err(why) => (number_of(Err(why)), number_of(Err(why))),
    };
    print!(rt; " tally {high} {low}")?;
    score
        .number(rt, 0, high)?
        .number(rt, case.all.len() as u64, low)
}

// The lists and counts of a text.
pub fn check_lists(rt: &impl Print, score: Score, case: Case) -> io::Result<Score> {
    let front = |p: Pattern, t: &[u16], l: &mut [u16]| matching::leftmost(p, t, l);
    let back = |p: Pattern, t: &[u16], l: &mut [u16]| matching::rightmost(p, t, l);
    let all = |p: Pattern, t: &[u16], l: &mut [u16]| counting::all(p, t, l);
    let count = case.front.len();
    let fronts = check_list(rt, score, ": front ", &front, case, case.front, count)?;
    let backs = check_list(rt, fronts, " back ", &back, case, case.back, count)?;
    let support = check_support(rt, backs, case)?;
    let every = check_list(rt, support, " all ", &all, case, case.all, 0)?;
    check_tally(rt, every, case)
}
