ghost use Rattle.std.specs.Prelude.{◌≡◌, ◌*◌, ◌≤◌, length, ◌≢◌};
ghost use Rattle.basics.specs.Written.{over};
ghost use Rattle.pattern.specs.declared.refusal.Refusal.TheVariants.{Tally};
ghost use Rattle.counting.specs.Halves.{halves};
ghost use Rattle.counting.specs.Answers.{started, starts_written};

use crate::column::fill_text;
use crate::number::halves;
use pattern::{Pattern, Refusal};

// Writes numbers over the start of a list, of each the high half and then the low one: what `starts` promises C and everyone
// (`starts_written`), so the list is no list of pairs.
fn put_halves(numbers: &[u128], list: &mut [u64])
    requires { length numbers.now * 2 ≤ length list.old }
    ensures { list.new ≡ over list.old (halves numbers.now) }
{
    for (i, n) in numbers.iter().enumerate() {
        let (high, low) = halves(*n);
        list[i * 2] = high;
        list[i * 2 + 1] = low;
    }
}

// How many occurrences start at each word, two halves for each, and for how many words (document 02: hits that start at each word). It
// never answers 9.
pub fn starts(pattern: Pattern, text: &[u16], list: &mut [u64]) -> Result<usize, Refusal>
    ensures value { result ≡ started pattern text.now (length list.old) }
    ensures list_after { list.new ≡ starts_written pattern text.now list.old }
    ensures not_nine { result ≢ Err Tally }
{
    let n = text.len();
    pattern.check_with(n)?;
    if list.len() / 2 < n {
        // 0: the list is at no place of the text (`started`)
        return Err(Refusal::ListLength(0));
    }
    let mut column = [0u128; 20001];
    fill_text(&pattern, text, &mut column);
    put_halves(&column[..n], list);
    Ok(n)
}
