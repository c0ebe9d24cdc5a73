// The answers of the library's calls as C reads them, and what each is made from: plain structs of numbers and no enums, as the C interface has
// them.
ghost use Rattle.std.specs.Prelude.{◌≡◌};
ghost use Rattle.bindings.specs.Answers.{refused, value, of_verdict, of_number, of_tested, of_total, pattern_or, of_input, of_line, of_search, of_excerpt, with_cursors};

use counting::halves;
use cursors::Cursors;
use format::{Input, Line};
use pattern::{Pattern, Refusal};

// An answer, or a refusal's number with its place; then the value is 0.
#[repr(C)]
#[derive(Clone, Copy)]
pub struct Answer {
    pub number: u32,
    pub place: usize,
    pub value: u64,
}

// A number of occurrences in two halves, high times 2 ^ 64 plus low, or a refusal's number with its place; then both halves are 0.
#[repr(C)]
#[derive(Clone, Copy)]
pub struct Total {
    pub number: u32,
    pub place: usize,
    pub high: u64,
    pub low: u64,
}

// A pattern, beside a refusal's number with its place.
#[repr(C)]
#[derive(Clone, Copy)]
pub struct Made {
    pub number: u32,
    pub place: usize,
    pub pattern: Pattern,
}

// How many words were read and the pattern, or a refusal's number with its place, 0 words and a new pattern.
#[repr(C)]
#[derive(Clone, Copy)]
pub struct ReadBoth {
    pub number: u32,
    pub place: usize,
    pub words: u64,
    pub pattern: Pattern,
}

// Where a line's bytes end and where the next line begins; the same place where the line is not closed.
#[repr(C)]
#[derive(Clone, Copy)]
pub struct LineEnds {
    pub end: usize,
    pub next: usize,
}

// What a search found: 1 and its places, or 0 and places of 0.
#[repr(C)]
#[derive(Clone, Copy)]
pub struct Found {
    pub number: u32,
    pub place: usize,
    pub found: u64,
    pub places: [u16; 16],
}

// How long an excerpt is, and one of its words.
#[repr(C)]
#[derive(Clone, Copy)]
pub struct Excerpted {
    pub length: usize,
    pub word: u16,
}

// The state that a client's call leaves, beside what it found.
#[repr(C)]
#[derive(Clone, Copy)]
pub struct ServedTo {
    pub cursors: Cursors,
    pub number: u32,
    pub place: usize,
    pub found: u64,
    pub places: [u16; 16],
}

impl Answer {
    // A refusal as numbers.
    fn refused(why: Refusal) -> Self
        ensures { result ≡ refused why }
    {
        Answer {
            number: why.number(),
            place: why.place(),
            value: 0,
        }
    }

    // An answer that is not refused.
    fn value(n: u64) -> Self
        ensures { result ≡ value n }
    {
        Answer {
            number: 0,
            place: 0,
            value: n,
        }
    }
}

impl From<Result<(), Refusal>> for Answer {
    ghost from_gives = { λ verdict told. told ≡ of_verdict verdict };

    // A verdict: 0 where it accepts.
    fn from(verdict: Result<(), Refusal>) -> Self {
        match verdict {
            Ok(()) => Answer::value(0),
            Err(why) => Answer::refused(why),
        }
    }
}

impl From<Result<usize, Refusal>> for Answer {
    ghost from_gives = { λ answer told. told ≡ of_number answer };

    // How many rows, words or bytes.
    fn from(answer: Result<usize, Refusal>) -> Self {
        match answer {
            Ok(n) => Answer::value(n as u64),
            Err(why) => Answer::refused(why),
        }
    }
}

impl From<Result<bool, Refusal>> for Answer {
    ghost from_gives = { λ answer told. told ≡ of_tested answer };

    // 1 for yes, 0 for no.
    fn from(answer: Result<bool, Refusal>) -> Self {
        match answer {
            Ok(yes) => Answer::value(u64::from(yes)),
            Err(why) => Answer::refused(why),
        }
    }
}

impl From<Result<u128, Refusal>> for Total {
    ghost from_gives = { λ answer told. told ≡ of_total answer };

    // The two halves of the number.
    fn from(answer: Result<u128, Refusal>) -> Self {
        match answer {
            Ok(n) => {
                let (high, low) = halves(n);
                Total {
                    number: 0,
                    place: 0,
                    high,
                    low,
                }
            }
            Err(why) => Total {
                number: why.number(),
                place: why.place(),
                high: 0,
                low: 0,
            },
        }
    }
}

impl Made {
    // The pattern that was made or, where it was refused, another.
    pub(crate) fn or(answer: Result<Pattern, Refusal>, other: Pattern) -> Self
        ensures { result ≡ pattern_or other answer }
    {
        match answer {
            Ok(pattern) => Made {
                number: 0,
                place: 0,
                pattern,
            },
            Err(why) => Made {
                number: why.number(),
                place: why.place(),
                pattern: other,
            },
        }
    }
}

impl From<Result<Input, Refusal>> for ReadBoth {
    ghost from_gives = { λ answer told. told ≡ of_input answer };

    // Both files that were read or, where one was refused, no words and a new pattern.
    fn from(answer: Result<Input, Refusal>) -> Self {
        match answer {
            Ok(input) => ReadBoth {
                number: 0,
                place: 0,
                words: input.words as u64,
                pattern: input.pattern,
            },
            Err(why) => ReadBoth {
                number: why.number(),
                place: why.place(),
                words: 0,
                pattern: Pattern::new(),
            },
        }
    }
}

impl From<Line> for LineEnds {
    ghost from_gives = { λ line told. told ≡ of_line line };

    // Its two places.
    fn from(line: Line) -> Self {
        LineEnds {
            end: line.end,
            next: line.next,
        }
    }
}

impl From<Result<Option<[u16; 16]>, Refusal>> for Found {
    ghost from_gives = { λ answer told. told ≡ of_search answer };

    // 1 and the places, or 0 and places of 0.
    fn from(answer: Result<Option<[u16; 16]>, Refusal>) -> Self {
        match answer {
            Ok(Some(places)) => Found {
                number: 0,
                place: 0,
                found: 1,
                places,
            },
            Ok(None) => Found {
                number: 0,
                place: 0,
                found: 0,
                places: [0u16; 16],
            },
            Err(why) => Found {
                number: why.number(),
                place: why.place(),
                found: 0,
                places: [0u16; 16],
            },
        }
    }
}

impl From<(&[u16], usize)> for Excerpted {
    ghost from_gives = { λ asked told. told ≡ of_excerpt asked.0.now asked.1 };

    // The words' number, and the one at the index, or 0 past their end.
    fn from(asked: (&[u16], usize)) -> Self {
        let (words, index) = asked;
        Excerpted {
            length: words.len(),
            word: words.get(index).copied().unwrap_or(0),
        }
    }
}

impl ServedTo {
    // What a call found beside the state that it leaves.
    pub(crate) fn with(cursors: Cursors, found: Found) -> Self
        ensures { result ≡ with_cursors cursors found }
    {
        let places = found.places;
        ServedTo {
            cursors,
            number: found.number,
            place: found.place,
            found: found.found,
            places,
        }
    }
}
