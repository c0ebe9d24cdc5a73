ghost use Rattle.std.specs.Prelude.{◌≡◌, take, min};
ghost use Rattle.pattern.specs.Patterns.{slot_of, with_gap, stated, lists, taken, takes, member, padded};
ghost use Rattle.pattern.specs.Numbers.{Numbers, mark_number, numbers_take};
ghost use Rattle.pattern.specs.Words.{rises, canonical};

use crate::words::{rises, sorted};
use basics::{smaller, widen};

// One element of a pattern (document 01: slot): the words it lists, the gap before it, and whether it takes these or any but these. C has
// the same struct, so the number of words stands beside them.
#[repr(C)]
#[derive(Clone, Copy)]
pub struct Slot {
    pub words: [u16; 8],
    pub count: usize,
    pub low: u16,
    pub high: u16,
    pub excluding: bool,
}

// Whether the word is one of the first `count` of the words.
#[tactic(auto, using(crate::proofs::Arrays::among_here, crate::proofs::Arrays::among_later, crate::proofs::Arrays::among_none))]
fn lists(words: &[u16], count: usize, word: u16) -> bool
    ensures { result ≡ member word (take count words.now) }
{
    // for: tried with `any`, and the proof didn't close
    for i in 0..count.min(words.len()) {
        if words[i] == word {
            return true;
        }
    }
    false
}

// Whether a slot takes a word, by its mark and by whether it lists the word.
fn taken(excluding: bool, word: u16, listed: bool) -> bool
    ensures { result ≡ taken excluding word listed }
{
    if excluding {
        return !(listed | (word == 0));
    }
    listed
}

// The mark as a number: 1 for an excluding slot, else 0. (A number, as in all of `numbers`, of which `numbers_taken` speaks.)
fn mark_number(excluding: bool) -> u16
    ensures { result ≡ mark_number excluding }
{
    u16::from(excluding)
}

// How many of a slot's eight words count.
fn stated(count: usize) -> u16
    ensures { result ≡ min count 8 }
{
    smaller(count, 8) as u16
}

// The first eight of the words, and 0 in the entries that they leave.
fn eight(words: &[u16]) -> [u16; 8]
    ensures { result ≡ padded words.now }
{
    let n = words.len().min(8);
    let mut entries = [0u16; 8];
    entries[..n].copy_from_slice(&words[..n]);
    entries
}

impl Slot {
    // The slot with these words, as many as there are, and 0 in its unused entries.
    pub fn of(low: u16, high: u16, excluding: bool, words: &[u16]) -> Self
        ensures { result ≡ slot_of low high excluding words.now }
    {
        Slot {
            words: eight(words),
            count: words.len(),
            low,
            high,
            excluding,
        }
    }

    // Whether the slot lists the word.
    pub fn lists(&self, word: u16) -> bool
        ensures { result ≡ lists self.now word }
    {
        lists(&self.words, self.count, word)
    }

    // Whether the slot takes the word.
    #[tactic(auto, unfolding(crate::specs::Patterns::takes))]
    pub fn takes(&self, word: u16) -> bool
        ensures { result ≡ takes self.now word }
    {
        taken(self.excluding, word, self.lists(word))
    }

    // Whether the words that the slot states rise strictly.
    pub(crate) fn rises(&self) -> bool
        ensures { result ≡ rises (stated self.now) }
    {
        rises(&self.words, self.count)
    }

    // The slot as a pattern holds it: its words in rising order, each once; where it states more than eight, as it is.
    #[tactic(auto, unfolding(crate::specs::Words::canonical))]
    pub fn canonical(self) -> Self
        ensures { result ≡ canonical self }
    {
        if 8 < self.count {
            return self;
        }
        let rising = sorted(&self.words[..self.count]);
        let words = rising.entries;
        Slot {
            words,
            count: rising.count,
            ..self
        }
    }

    // The slot with another gap before it.
    pub fn with_gap(self, low: u16, high: u16) -> Self
        ensures { result ≡ with_gap self low high }
    {
        Slot { low, high, ..self }
    }

    // The slot as twelve numbers: the two bounds of its gap, its mark, how many words it states, and its eight words.
    #[tactic(auto, using(crate::proofs::Numbers::eight_entries))]
    pub fn numbers(self) -> [u16; 12]
        ensures { Numbers self result }
    {
        let w = self.words;
        [
            self.low,
            self.high,
            mark_number(self.excluding),
            stated(self.count),
            w[0],
            w[1],
            w[2],
            w[3],
            w[4],
            w[5],
            w[6],
            w[7],
        ]
    }

    // Whether the slot with these numbers takes the word. (Its mark is a number: the theorem `numbers_taken` speaks of it.)
    #[tactic(auto, unfolding(crate::specs::Numbers::numbers_take))]
    pub fn numbers_take(numbers: &[u16], word: u16) -> bool
        ensures { result ≡ numbers_take numbers.now word }
    {
        if numbers.len() < 12 {
            return false;
        }
        let listed = lists(&numbers[4..12], widen(numbers[3]), word);
        taken(numbers[2] == 1, word, listed)
    }
}
