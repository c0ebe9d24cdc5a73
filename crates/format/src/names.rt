ghost use Rattle.std.specs.Prelude.{◌≡◌};
ghost use Rattle.format.specs.Names.{span_names, slot_names, columns_of};

use crate::fields::{column, count};

// Where the fields of a slot's line stand, from 0.
#[derive(Clone, Copy)]
pub(crate) struct Columns {
    pub low: usize,
    pub high: usize,
    pub words: usize,
}

// Whether a line has the names `least` and `most`. A function beside `slot_names`: one for both would be handed each line's names as an array of
// slices, and with a single call for each kind of line it would be no plainer.
pub(crate) fn span_names(s: &[u8]) -> bool
    ensures { result ≡ span_names s.now }
{
    count(s, b' ') == 2 && column(s, b"least") < 2 && column(s, b"most") < 2
}

// Whether a line has the names `low`, `high` and `words`.
pub(crate) fn slot_names(s: &[u8]) -> bool
    ensures { result ≡ slot_names s.now }
{
    count(s, b' ') == 3
        && column(s, b"low") < 3
        && column(s, b"high") < 3
        && column(s, b"words") < 3
}

// Where the names of a slot's fields stand.
pub(crate) fn columns_of(s: &[u8]) -> Columns
    ensures { result ≡ columns_of s.now }
{
    Columns {
        low: column(s, b"low"),
        high: column(s, b"high"),
        words: column(s, b"words"),
    }
}
