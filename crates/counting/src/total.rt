ghost use Rattle.std.specs.Prelude.{◌≡◌, ◌≢◌};
ghost use Rattle.pattern.specs.declared.refusal.Refusal.TheVariants.{Tally};
ghost use Rattle.counting.specs.Answers.{tallied};

use crate::column::{fill_text, sum_of};
use pattern::{Pattern, Refusal};

// The number of all occurrences (document 01: the tally). It never answers 9.
pub fn tally(pattern: Pattern, text: &[u16]) -> Result<u128, Refusal>
    ensures value { result ≡ tallied pattern text.now }
    ensures not_nine { result ≢ Err Tally }
{
    pattern.check_with(text.len())?;
    let mut column = [0u128; 20001];
    fill_text(&pattern, text, &mut column);
    Ok(sum_of(&column[..text.len()]))
}
