// The conditions of an occurrence, in the order of Definition 3: word, gap and span; and last the sentence.
// Each asks that the row is `Sized`: a struct of pattern and row that holds this would be made in one place only, and be no plainer.
// A place is widened by `as usize`, not `usize::from`: a cast is no call, so proofs read conditions as the code compares them.
ghost use Rattle.std.specs.Prelude.{true, ◌&&◌, ◌≡◌, length};
ghost use Rattle.matching.specs.Occurrence.{takes_at};
ghost use Rattle.matching.specs.Occurrences.{within, word, gap, span, sentence};
ghost use Rattle.excerpts.specs.Steps.Rows.{Sized};

use pattern::{Pattern, Slot};

// Whether x lies within low to high.
#[tactic(auto, unfolding(matching::specs::Occurrences::within))]
fn within(low: usize, x: usize, high: usize) -> bool
    ensures { result ≡ within low x high }
{
    (low..=high).contains(&x)
}

// Whether the place is in the text, and its word one that the slot takes.
fn place_fits(slot: &Slot, text: &[u16], place: usize) -> bool
    ensures { result ≡ (within 1 place (length text.now) && takes_at slot.now text.now place) }
{
    within(1, place, text.len()) && slot.takes(text[place - 1])
}

// Word: whether each place is in the text, and its word one that the slot takes.
pub(crate) fn word(pattern: &Pattern, text: &[u16], row: &[u16]) -> bool
    requires { Sized pattern.now row.now }
    ensures { result ≡ word pattern.now text.now row.now }
{
    // for: tried with `zip` and `all`, and the proof's `returns` didn't close; what it wants is longer than the loop's proof
    for (j, place) in row.iter().enumerate() {
        if !place_fits(&pattern.slots[j], text, *place as usize) {
            return false;
        }
    }
    true
}

// Gap: whether low to high words stand between each two neighbouring places.
pub(crate) fn gap(pattern: &Pattern, row: &[u16]) -> bool
    requires { Sized pattern.now row.now }
    ensures { result ≡ gap pattern.now row.now }
{
    // for over indices: a zip would be of three lists, two of them without their first, and no plainer
    for j in 0..pattern.count - 1 {
        let slot = &pattern.slots[j + 1];
        let place = row[j] as usize;
        let low = place + slot.low as usize + 1;
        let high = place + slot.high as usize + 1;
        if !within(low, row[j + 1] as usize, high) {
            return false;
        }
    }
    true
}

// Span: whether there are least to most words from the first place to the last.
#[tactic(auto, unfolding(matching::specs::Occurrences::span))]
pub(crate) fn span(pattern: &Pattern, row: &[u16]) -> bool
    requires { Sized pattern.now row.now }
    ensures { result ≡ span pattern.now row.now }
{
    let first = row[0] as usize;
    let last = row[pattern.count - 1] as usize;
    within(
        first + pattern.least as usize,
        last + 1,
        first + pattern.most as usize,
    )
}

// Sentence: whether none ends strictly between the first place and the last, of a row whose words fit.
pub(crate) fn sentence(pattern: &Pattern, text: &[u16], row: &[u16]) -> bool
    requires { Sized pattern.now row.now × (word pattern.now text.now row.now ≡ true) }
    ensures { result ≡ sentence pattern.now text.now row.now }
{
    let first = row[0] as usize;
    let last = row[pattern.count - 1] as usize;
    // for over places: where `last` is no more than `first`, the text has no slice from the one to the other
    for place in first + 1..last {
        if text[place - 1] == 0 {
            return false;
        }
    }
    true
}
