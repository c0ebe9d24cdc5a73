ghost use Rattle.std.specs.Prelude.{◌≡◌};
ghost use Rattle.format.specs.Patterns.{span_values, slot_values, read_slot, made_slot};

use crate::fields::{count, part};
use crate::names::Columns;
use crate::numbers::{is_number, value};
use crate::words::{all_words, count_words, first_words, marked};
use pattern::Slot;

// Whether a line has two numbers.
pub(crate) fn span_values(s: &[u8]) -> bool
    ensures { result ≡ span_values s.now }
{
    count(s, b' ') == 2 && is_number(part(s, b' ', 0)) && is_number(part(s, b' ', 1))
}

// Whether a line has the values of a slot. A function beside `span_values`, since the fields have kinds and places of their own, and one for both
// would be no plainer.
#[tactic(auto, unfolding(crate::specs::Patterns::slot_values))]
pub(crate) fn slot_values(s: &[u8], c: Columns) -> bool
    ensures { result ≡ slot_values c s.now }
{
    count(s, b' ') == 3
        && is_number(part(s, b' ', c.low))
        && is_number(part(s, b' ', c.high))
        && all_words(part(s, b' ', c.words))
}

// The slot that a line shows.
pub(crate) fn slot_of(s: &[u8], c: Columns) -> Slot
    ensures { result ≡ made_slot (read_slot c s.now) }
{
    let list = part(s, b' ', c.words);
    let shown = Slot {
        words: first_words(list),
        count: count_words(list),
        low: value(part(s, b' ', c.low)),
        high: value(part(s, b' ', c.high)),
        excluding: marked(list),
    };
    shown.canonical()
}
