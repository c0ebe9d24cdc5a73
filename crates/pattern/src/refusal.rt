ghost use Rattle.std.specs.Prelude.{◌≡◌, Some};
ghost use Rattle.pattern.specs.Refusals.{number_of, place_of, shown};

use std::error::Error;
use std::fmt;

// Why a call is refused: a case for each number of document 01's table, in its order, then document 02's. What a case carries is its place.
#[derive(Clone, Copy, Debug, PartialEq, Eq)]
pub enum Refusal {
    SlotCount,
    WordCount(usize),
    ZeroWord(usize),
    Gap(usize),
    Span,
    TextLength,
    RowLength,
    ListLength(usize),
    Tally,
    Names(usize),
    Values(usize),
    FileLength,
    WordListLength,
    Client,
    Served,
    WordOrder(usize),
    SlotsDiffer,
    NothingShared,
    TooManyWords,
    NotExpression,
    TooDeep,
    UnequalLengths,
}

impl Refusal {
    // Its number in the table.
    pub fn number(self) -> u32
        ensures { result ≡ number_of self }
    {
        match self {
            Refusal::SlotCount => 1,
            Refusal::WordCount(_) => 2,
            Refusal::ZeroWord(_) => 3,
            Refusal::Gap(_) => 4,
            Refusal::Span => 5,
            Refusal::TextLength => 6,
            Refusal::RowLength => 7,
            Refusal::ListLength(_) => 8,
            Refusal::Tally => 9,
            Refusal::Names(_) => 10,
            Refusal::Values(_) => 11,
            Refusal::FileLength => 12,
            Refusal::WordListLength => 13,
            Refusal::Client => 14,
            Refusal::Served => 15,
            Refusal::WordOrder(_) => 16,
            Refusal::SlotsDiffer => 17,
            Refusal::NothingShared => 18,
            Refusal::TooManyWords => 19,
            Refusal::NotExpression => 20,
            Refusal::TooDeep => 21,
            Refusal::UnequalLengths => 22,
        }
    }

    // The slot, the line or the count that belongs to the number, or 0: no Option, since the clause (`place_of`) and C have the 0.
    pub fn place(self) -> usize
        ensures { result ≡ place_of self }
    {
        match self {
            Refusal::SlotCount => 0,
            Refusal::WordCount(slot) => slot,
            Refusal::ZeroWord(slot) => slot,
            Refusal::Gap(slot) => slot,
            Refusal::Span => 0,
            Refusal::TextLength => 0,
            Refusal::RowLength => 0,
            Refusal::ListLength(rows) => rows,
            Refusal::Tally => 0,
            Refusal::Names(line) => line,
            Refusal::Values(line) => line,
            Refusal::FileLength => 0,
            Refusal::WordListLength => 0,
            Refusal::Client => 0,
            Refusal::Served => 0,
            Refusal::WordOrder(slot) => slot,
            Refusal::SlotsDiffer => 0,
            Refusal::NothingShared => 0,
            Refusal::TooManyWords => 0,
            Refusal::NotExpression => 0,
            Refusal::TooDeep => 0,
            Refusal::UnequalLengths => 0,
        }
    }
}

impl fmt::Display for Refusal {
    ghost output = { λ why. Some (shown why) };

    // `refused`, its number and its place.
    fn fmt<W: fmt::Write>(&self, f: &mut fmt::Formatter<W>) -> fmt::Result {
        write!(f, "refused {} {}", self.number(), self.place())
    }
}

impl Error for Refusal {}
