// The nine texts of document 01 with their patterns, and the rows that belong to each. The letters a, b, c, g, t and x are the words 1 to 6.
// What document 01 leaves out is worked out from its definitions by trying every row: the occurrences of texts 2 to 5, the back lists of 2 and 5,
// both lists of 6.

// Rows of places.
pub type Rows = &'static [&'static [u16]];

// A text with its pattern (the span limits, then low, high and word of each slot), its three lists, and a row that is no occurrence.
#[derive(Clone, Copy)]
pub struct Case {
    pub words: &'static [u16],
    pub least: u16,
    pub most: u16,
    pub slots: &'static [[u16; 3]],
    pub front: Rows,
    pub back: Rows,
    pub all: Rows,
    pub none: &'static [u16],
}

pub(crate) const CASES: [Case; 9] = [
    // aggcaaga, by a[0,1]g[0,1]a; no occurrence: by its gap
    Case {
        words: &[1, 4, 4, 3, 1, 1, 4, 1],
        least: 1,
        most: 20000,
        slots: &[[0, 0, 1], [0, 1, 4], [0, 1, 1]],
        front: &[&[1, 3, 5], &[5, 7, 8]],
        back: &[&[1, 3, 5], &[6, 7, 8]],
        all: &[&[1, 3, 5], &[5, 7, 8], &[6, 7, 8]],
        none: &[1, 2, 5],
    },
    // aggcaaga, by a[0,1]g[0,1]a, spans 4 to 5; no occurrence: by its span
    Case {
        words: &[1, 4, 4, 3, 1, 1, 4, 1],
        least: 4,
        most: 5,
        slots: &[[0, 0, 1], [0, 1, 4], [0, 1, 1]],
        front: &[&[1, 3, 5], &[5, 7, 8]],
        back: &[&[1, 3, 5], &[5, 7, 8]],
        all: &[&[1, 3, 5], &[5, 7, 8]],
        none: &[6, 7, 8],
    },
    // aattatatt, by a[0,1]t[0,1]a, spans 3 to 4; no occurrence: by its span
    Case {
        words: &[1, 1, 5, 5, 1, 5, 1, 5, 5],
        least: 3,
        most: 4,
        slots: &[[0, 0, 1], [0, 1, 5], [0, 1, 1]],
        front: &[&[2, 3, 5], &[5, 6, 7]],
        back: &[&[2, 4, 5], &[5, 6, 7]],
        all: &[&[2, 3, 5], &[2, 4, 5], &[5, 6, 7]],
        none: &[1, 3, 5],
    },
    // actataagg, by a[0,1]t[0,1]a[1,3]g; no occurrence: by its gap
    Case {
        words: &[1, 3, 5, 1, 5, 1, 1, 4, 4],
        least: 1,
        most: 20000,
        slots: &[[0, 0, 1], [0, 1, 5], [0, 1, 1], [1, 3, 4]],
        front: &[&[1, 3, 4, 8], &[4, 5, 6, 9]],
        back: &[&[1, 3, 4, 8], &[4, 5, 7, 9]],
        all: &[&[1, 3, 4, 8], &[4, 5, 6, 8], &[4, 5, 6, 9], &[4, 5, 7, 9]],
        none: &[1, 3, 4, 9],
    },
    // atatgtagatgattga, by a[0,2]t[0,2]g[0,1]a; no occurrence: by a word
    Case {
        words: &[1, 5, 1, 5, 4, 5, 1, 4, 1, 5, 4, 1, 5, 5, 4, 1],
        least: 1,
        most: 20000,
        slots: &[[0, 0, 1], [0, 2, 5], [0, 2, 4], [0, 1, 1]],
        front: &[
            &[1, 2, 5, 7],
            &[3, 6, 8, 9],
            &[7, 10, 11, 12],
            &[12, 13, 15, 16],
        ],
        back: &[
            &[1, 4, 5, 7],
            &[3, 6, 8, 9],
            &[9, 10, 11, 12],
            &[12, 14, 15, 16],
        ],
        all: &[
            &[1, 2, 5, 7],
            &[1, 4, 5, 7],
            &[3, 4, 5, 7],
            &[3, 6, 8, 9],
            &[7, 10, 11, 12],
            &[9, 10, 11, 12],
            &[12, 13, 15, 16],
            &[12, 14, 15, 16],
        ],
        none: &[1, 2, 5, 6],
    },
    // acctctgtt, by a[0,3]c[1,3]t; no occurrence: by its gap
    Case {
        words: &[1, 3, 3, 5, 3, 5, 4, 5, 5],
        least: 1,
        most: 20000,
        slots: &[[0, 0, 1], [0, 3, 3], [1, 3, 5]],
        front: &[&[1, 2, 4]],
        back: &[&[1, 5, 9]],
        all: &[&[1, 2, 4], &[1, 2, 6], &[1, 3, 6], &[1, 5, 8], &[1, 5, 9]],
        none: &[1, 5, 6],
    },
    // aabxc, by a[0,2]b[0,1]c, spans 1 to 4; no occurrence: by its span
    Case {
        words: &[1, 1, 2, 6, 3],
        least: 1,
        most: 4,
        slots: &[[0, 0, 1], [0, 2, 2], [0, 1, 3]],
        front: &[&[2, 3, 5]],
        back: &[&[2, 3, 5]],
        all: &[&[2, 3, 5]],
        none: &[1, 3, 5],
    },
    // abcc, by a[0,2]b[0,2]c, spans 4 to 4; no occurrence: by its span
    Case {
        words: &[1, 2, 3, 3],
        least: 4,
        most: 4,
        slots: &[[0, 0, 1], [0, 2, 2], [0, 2, 3]],
        front: &[&[1, 2, 4]],
        back: &[&[1, 2, 4]],
        all: &[&[1, 2, 4]],
        none: &[1, 2, 3],
    },
    // the empty text, by a[0,1]g[0,1]a, since the paper leaves this pattern open; no occurrence: by the text's end
    Case {
        words: &[],
        least: 1,
        most: 20000,
        slots: &[[0, 0, 1], [0, 1, 4], [0, 1, 1]],
        front: &[],
        back: &[],
        all: &[],
        none: &[1, 2, 3],
    },
];

// Which call of the cursors.
#[derive(Clone, Copy)]
pub enum Asked {
    Next,
    Rewind,
}

// A call of the cursors on text 1: which, for which client; the answer as a number, 1 for an occurrence, 0 for none or for a rewind, and 100,000
// and the refusal's number; the row of the front list that is given, counted from 0; and the number that each of the four was served then.
// (The answer is no `Result`: of a `Refusal` the library would say the number that it is checked for.)
#[derive(Clone, Copy)]
pub struct Call {
    pub asked: Asked,
    pub client: usize,
    pub answer: u64,
    pub given: Option<usize>,
    pub served: [usize; 4],
}

// From a fresh state.
pub(crate) const FROM_FRESH: [Call; 12] = [
    Call {
        asked: Asked::Next,
        client: 1,
        answer: 1,
        given: Some(0),
        served: [1, 0, 0, 0],
    },
    Call {
        asked: Asked::Next,
        client: 2,
        answer: 1,
        given: Some(0),
        served: [1, 1, 0, 0],
    },
    Call {
        asked: Asked::Next,
        client: 1,
        answer: 1,
        given: Some(1),
        served: [2, 1, 0, 0],
    },
    Call {
        asked: Asked::Next,
        client: 1,
        answer: 0,
        given: None,
        served: [2, 1, 0, 0],
    },
    Call {
        asked: Asked::Next,
        client: 2,
        answer: 1,
        given: Some(1),
        served: [2, 2, 0, 0],
    },
    Call {
        asked: Asked::Rewind,
        client: 1,
        answer: 0,
        given: None,
        served: [2, 2, 0, 0],
    },
    Call {
        asked: Asked::Next,
        client: 2,
        answer: 0,
        given: None,
        served: [2, 2, 0, 0],
    },
    Call {
        asked: Asked::Next,
        client: 1,
        answer: 1,
        given: Some(0),
        served: [3, 2, 0, 0],
    },
    Call {
        asked: Asked::Next,
        client: 4,
        answer: 1,
        given: Some(0),
        served: [3, 2, 0, 1],
    },
    Call {
        asked: Asked::Next,
        client: 5,
        answer: 100014,
        given: None,
        served: [3, 2, 0, 1],
    },
    Call {
        asked: Asked::Next,
        client: 0,
        answer: 100014,
        given: None,
        served: [3, 2, 0, 1],
    },
    Call {
        asked: Asked::Rewind,
        client: 5,
        answer: 100014,
        given: None,
        served: [3, 2, 0, 1],
    },
];

// From a state in which client 3 was served 499.
pub(crate) const FROM_499: [Call; 7] = [
    Call {
        asked: Asked::Next,
        client: 3,
        answer: 1,
        given: Some(0),
        served: [0, 0, 500, 0],
    },
    Call {
        asked: Asked::Next,
        client: 3,
        answer: 100015,
        given: None,
        served: [0, 0, 500, 0],
    },
    Call {
        asked: Asked::Next,
        client: 5,
        answer: 100014,
        given: None,
        served: [0, 0, 500, 0],
    },
    Call {
        asked: Asked::Rewind,
        client: 3,
        answer: 0,
        given: None,
        served: [0, 0, 500, 0],
    },
    Call {
        asked: Asked::Next,
        client: 3,
        answer: 100015,
        given: None,
        served: [0, 0, 500, 0],
    },
    Call {
        asked: Asked::Next,
        client: 1,
        answer: 1,
        given: Some(0),
        served: [1, 0, 500, 0],
    },
    Call {
        asked: Asked::Next,
        client: 4,
        answer: 1,
        given: Some(0),
        served: [1, 0, 500, 1],
    },
];
