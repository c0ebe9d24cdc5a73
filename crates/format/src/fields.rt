ghost use Rattle.std.specs.Prelude.{◌≡◌, [], length, get_or};
ghost use Rattle.format.specs.Bytes.{parts, fields, all_numbers};
ghost use Rattle.format.specs.Names.{column};

use crate::numbers::is_number;

// How many parts there are between the bytes `sep`.
pub(crate) fn count(s: &[u8], sep: u8) -> usize
    ensures { result ≡ length (parts s.now sep) }
{
    s.split(|b| *b == sep).count()
}

// The k-th part, from 0, or nothing. No option, since a caller asks which number the part shows, and nothing shows none.
pub(crate) fn part(s: &[u8], sep: u8, k: usize) -> &[u8]
    ensures { result.now ≡ get_or (parts s.now sep) k [] }
{
    s.split(|b| *b == sep).nth(k).unwrap_or(&[])
}

// Where a name stands among the fields of a line, from 0, or how many fields there are. No option, since the number is what the definition
// `column` says, on which `span_names`, `slot_names` and the laws of the pattern file stand.
pub(crate) fn column(s: &[u8], name: &[u8]) -> usize
    ensures { result ≡ column (fields s.now) name.now }
{
    s.split(|b| *b == b' ').take_while(|f| *f != name).count()
}

// Whether all that stands between the commas is numbers.
pub(crate) fn all_numbers(s: &[u8]) -> bool
    ensures { result ≡ all_numbers (parts s.now 44) }
{
    s.split(|b| *b == b',').all(|p| is_number(p))
}
