// The field of a slot's words.
ghost use Rattle.std.specs.Prelude.{◌≡◌, map, length};
ghost use Rattle.pattern.specs.Patterns.{padded};
ghost use Rattle.format.specs.Bytes.{parts, value, all_numbers};
ghost use Rattle.format.specs.Words.{marked, bare, unmarked, word_parts};

use crate::fields::{all_numbers, count, part};
use crate::numbers::value;

// Whether the field begins with `!`: the words of an excluding slot.
pub(crate) fn marked(s: &[u8]) -> bool
    ensures { result ≡ marked s.now }
{
    s.first() == Some(&b'!')
}

// Whether the field is `!` alone: an excluding slot without words.
#[tactic(auto, using(crate::proofs::ByteSteps::same_by_eq))]
fn bare(s: &[u8]) -> bool
    ensures { result ≡ bare s.now }
{
    s == b"!".as_slice()
}

// The field without its `!`.
fn unmarked(s: &[u8]) -> &[u8]
    ensures { result.now ≡ unmarked s.now }
{
    if marked(s) { &s[1..] } else { s }
}

// Whether all of the words are numbers.
pub(crate) fn all_words(s: &[u8]) -> bool
    ensures { result ≡ all_numbers (word_parts s.now) }
{
    bare(s) || all_numbers(unmarked(s))
}

// How many words there are.
pub(crate) fn count_words(s: &[u8]) -> usize
    ensures { result ≡ length (word_parts s.now) }
{
    if bare(s) { 0 } else { count(unmarked(s), b',') }
}

// The first eight of the numbers between the commas, and 0 in the entries that they leave.
fn first_numbers(s: &[u8]) -> [u16; 8]
    ensures { result ≡ padded (map value (parts s.now 44)) }
{
    std::array::from_fn(|i| value(part(s, b',', i)))
}

// The first eight of the words, and 0 in the entries that they leave.
pub(crate) fn first_words(s: &[u8]) -> [u16; 8]
    ensures { result ≡ padded (map value (word_parts s.now)) }
{
    first_numbers(unmarked(s))
}
