// The texts with sentence ends of matching/specs/SentenceTexts.antt, then those for excluding slots of matching/specs/ExcludingTexts.antt,
// in their order, and last the one for the conditions of matching/specs/ConditionTexts.antt.
// The letters a, b, c and x are the words 1, 2, 3 and 6, a full stop the word 0.

// A slot: low, high, whether it is excluding, and its words.
pub type SlotLine = (u16, u16, bool, &'static [u16]);

// A text with its pattern, and a row of it to be tested.
#[derive(Clone, Copy)]
pub struct Case {
    pub words: &'static [u16],
    pub least: u16,
    pub most: u16,
    pub slots: &'static [SlotLine],
    pub row: &'static [u16],
}

// a[0,3]b, for nine texts
const A_TO_B: &[SlotLine] = &[(0, 0, false, &[1]), (0, 3, false, &[2])];

// a[0,2]b[0,2]c, for two
const A_B_C: &[SlotLine] = &[
    (0, 0, false, &[1]),
    (0, 2, false, &[2]),
    (0, 2, false, &[3]),
];

// a[0,1]b[0,1]c, spans 4 to 4
const A_B_C_SPAN_4: &[SlotLine] = &[
    (0, 0, false, &[1]),
    (0, 1, false, &[2]),
    (0, 1, false, &[3]),
];

// a[0,1]b[0,1]c[0,1]a
const A_B_C_A: &[SlotLine] = &[
    (0, 0, false, &[1]),
    (0, 1, false, &[2]),
    (0, 1, false, &[3]),
    (0, 1, false, &[1]),
];

// a
const A: &[SlotLine] = &[(0, 0, false, &[1])];

// a, any word but b and c, a, without gaps
const A_NOT_BC_A: &[SlotLine] = &[
    (0, 0, false, &[1]),
    (0, 0, true, &[2, 3]),
    (0, 0, false, &[1]),
];

// the same with gaps 0 to 1
const A_NOT_BC_A_WIDE: &[SlotLine] = &[
    (0, 0, false, &[1]),
    (0, 1, true, &[2, 3]),
    (0, 1, false, &[1]),
];

// a and any word right after it
const A_ANY: &[SlotLine] = &[(0, 0, false, &[1]), (0, 0, true, &[])];

// a and any word after it, gap 0 to 1
const A_ANY_WIDE: &[SlotLine] = &[(0, 0, false, &[1]), (0, 1, true, &[])];

// any word
const ANY: &[SlotLine] = &[(0, 0, true, &[])];

// any three words in a row
const ANY_THREE: &[SlotLine] = &[(0, 0, true, &[]), (0, 0, true, &[]), (0, 0, true, &[])];

// a, any word but b, c, without gaps
const A_NOT_B_C: &[SlotLine] = &[(0, 0, false, &[1]), (0, 0, true, &[2]), (0, 0, false, &[3])];

// a, any word but x, c, without gaps
const A_NOT_X_C: &[SlotLine] = &[(0, 0, false, &[1]), (0, 0, true, &[6]), (0, 0, false, &[3])];

// a[1,3]b, spans 2 to 4
const A_FAR_B: &[SlotLine] = &[(0, 0, false, &[1]), (1, 3, false, &[2])];

pub(crate) const CASES: [Case; 23] = [
    // xa.bx
    Case {
        words: &[6, 1, 0, 2, 6],
        least: 1,
        most: 20000,
        slots: A_TO_B,
        row: &[2, 4],
    },
    // xabx
    Case {
        words: &[6, 1, 2, 6],
        least: 1,
        most: 20000,
        slots: A_TO_B,
        row: &[2, 3],
    },
    // a.xb
    Case {
        words: &[1, 0, 6, 2],
        least: 1,
        most: 20000,
        slots: A_TO_B,
        row: &[1, 4],
    },
    // ax.b
    Case {
        words: &[1, 6, 0, 2],
        least: 1,
        most: 20000,
        slots: A_TO_B,
        row: &[1, 4],
    },
    // a.x.b
    Case {
        words: &[1, 0, 6, 0, 2],
        least: 1,
        most: 20000,
        slots: A_TO_B,
        row: &[1, 5],
    },
    // a..ab
    Case {
        words: &[1, 0, 0, 1, 2],
        least: 1,
        most: 20000,
        slots: A_TO_B,
        row: &[1, 5],
    },
    // .axb.
    Case {
        words: &[0, 1, 6, 2, 0],
        least: 1,
        most: 20000,
        slots: A_TO_B,
        row: &[2, 4],
    },
    // a.ab
    Case {
        words: &[1, 0, 1, 2],
        least: 1,
        most: 20000,
        slots: A_TO_B,
        row: &[1, 4],
    },
    // axab
    Case {
        words: &[1, 6, 1, 2],
        least: 1,
        most: 20000,
        slots: A_TO_B,
        row: &[1, 4],
    },
    // aabbc.c.abc
    Case {
        words: &[1, 1, 2, 2, 3, 0, 3, 0, 1, 2, 3],
        least: 1,
        most: 20000,
        slots: A_B_C,
        row: &[2, 4, 7],
    },
    // aabbcxcxabc
    Case {
        words: &[1, 1, 2, 2, 3, 6, 3, 6, 1, 2, 3],
        least: 1,
        most: 20000,
        slots: A_B_C,
        row: &[2, 4, 7],
    },
    // axbc.abxcab.c
    Case {
        words: &[1, 6, 2, 3, 0, 1, 2, 6, 3, 1, 2, 0, 3],
        least: 4,
        most: 4,
        slots: A_B_C_SPAN_4,
        row: &[10, 11, 13],
    },
    // ab.cabca
    Case {
        words: &[1, 2, 0, 3, 1, 2, 3, 1],
        least: 1,
        most: 20000,
        slots: A_B_C_A,
        row: &[1, 2, 4, 5],
    },
    // .a.aa.
    Case {
        words: &[0, 1, 0, 1, 1, 0],
        least: 1,
        most: 20000,
        slots: A,
        row: &[4],
    },
    // axabaxa
    Case {
        words: &[1, 6, 1, 2, 1, 6, 1],
        least: 1,
        most: 20000,
        slots: A_NOT_BC_A,
        row: &[3, 4, 5],
    },
    // axaba
    Case {
        words: &[1, 6, 1, 2, 1],
        least: 1,
        most: 20000,
        slots: A_NOT_BC_A_WIDE,
        row: &[3, 4, 5],
    },
    // a.xab
    Case {
        words: &[1, 0, 6, 1, 2],
        least: 1,
        most: 20000,
        slots: A_ANY,
        row: &[1, 2],
    },
    // a.b
    Case {
        words: &[1, 0, 2],
        least: 1,
        most: 20000,
        slots: A_ANY_WIDE,
        row: &[1, 3],
    },
    // ab.x.
    Case {
        words: &[1, 2, 0, 6, 0],
        least: 1,
        most: 20000,
        slots: ANY,
        row: &[3],
    },
    // .axb.ab.
    Case {
        words: &[0, 1, 6, 2, 0, 1, 2, 0],
        least: 1,
        most: 20000,
        slots: ANY_THREE,
        row: &[3, 4, 5],
    },
    // abc
    Case {
        words: &[1, 2, 3],
        least: 1,
        most: 20000,
        slots: A_NOT_B_C,
        row: &[1, 2, 3],
    },
    // abc
    Case {
        words: &[1, 2, 3],
        least: 1,
        most: 20000,
        slots: A_NOT_X_C,
        row: &[1, 2, 3],
    },
    // abxbba.b
    Case {
        words: &[1, 2, 6, 2, 2, 1, 0, 2],
        least: 2,
        most: 4,
        slots: A_FAR_B,
        row: &[1, 4],
    },
];

// More rows of the last text: each fails one condition of an occurrence alone.
pub(crate) const FAILING: [&[u16]; 4] = [
    // word: x stands at place 3
    &[1, 3],
    // gap: no word between
    &[1, 2],
    // span: five words
    &[1, 5],
    // sentence: the full stop at place 7
    &[6, 8],
];
