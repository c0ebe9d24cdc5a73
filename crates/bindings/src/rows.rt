ghost use Rattle.std.specs.Prelude.{◌≡◌};
ghost use Rattle.excerpts.specs.Answers.{is_occurrence, excerpt_of};
ghost use Rattle.matching.specs.Answers.{first_after, last_before};
ghost use Rattle.bindings.specs.Answers.{of_tested, of_search, of_excerpt};

use crate::answers::{Answer, Excerpted, Found};
use pattern::Pattern;

// Whether the row is an occurrence: 1 or 0.
#[unsafe(no_mangle)]
pub extern "C" fn bedbloomer_is_occurrence(pattern: Pattern, text: &[u16], row: &[u16]) -> Answer
    ensures { result ≡ of_tested (is_occurrence pattern text.now row.now) }
{
    excerpts::is_occurrence(pattern, text, row).into()
}

// How long the row's excerpt (document 01: citation) is, and its word at this index, from 0.
#[unsafe(no_mangle)]
pub extern "C" fn bedbloomer_excerpt(
    pattern: Pattern,
    text: &[u16],
    row: &[u16],
    index: usize,
) -> Excerpted
    ensures { result ≡ of_excerpt (excerpt_of pattern text.now row.now) index }
{
    (excerpts::excerpt(pattern, text, row), index).into()
}

// The forward search: the earliest occurrence past the marks.
#[unsafe(no_mangle)]
pub extern "C" fn bedbloomer_first_after(pattern: Pattern, text: &[u16], marks: &[u16]) -> Found
    ensures { result ≡ of_search (first_after pattern text.now marks.now) }
{
    matching::first_after(pattern, text, marks).into()
}

// The backward search: the latest occurrence before the marks.
#[unsafe(no_mangle)]
pub extern "C" fn bedbloomer_last_before(pattern: Pattern, text: &[u16], marks: &[u16]) -> Found
    ensures { result ≡ of_search (last_before pattern text.now marks.now) }
{
    matching::last_before(pattern, text, marks).into()
}
