ghost use Rattle.std.specs.Prelude.{◌≡◌, length};
ghost use Rattle.pattern.specs.Tests.{input_verdict};
ghost use Rattle.matching.specs.Lists.{leftmost};
ghost use Rattle.matching.specs.Answers.{front_listed, front_written, back_listed, back_written, counted};
ghost use Rattle.counting.specs.Answers.{tallied, all_listed, all_written, started, starts_written};
ghost use Rattle.bindings.specs.Answers.{of_number, of_total};

use crate::answers::{Answer, Total};
use pattern::Pattern;

// The front list.
#[unsafe(no_mangle)]
pub extern "C" fn bedbloomer_leftmost(pattern: Pattern, text: &[u16], list: &mut [u16]) -> Answer
    ensures value { result ≡ of_number (front_listed pattern text.now (length list.old)) }
    ensures list_after { list.new ≡ front_written pattern text.now list.old }
{
    matching::leftmost(pattern, text, list).into()
}

// The back list.
#[unsafe(no_mangle)]
pub extern "C" fn bedbloomer_rightmost(pattern: Pattern, text: &[u16], list: &mut [u16]) -> Answer
    ensures value { result ≡ of_number (back_listed pattern text.now (length list.old)) }
    ensures list_after { list.new ≡ back_written pattern text.now list.old }
{
    matching::rightmost(pattern, text, list).into()
}

// All occurrences: the full list.
#[unsafe(no_mangle)]
pub extern "C" fn bedbloomer_all(pattern: Pattern, text: &[u16], list: &mut [u16]) -> Answer
    ensures value { result ≡ of_number (all_listed pattern text.now (length list.old)) }
    ensures list_after { list.new ≡ all_written pattern text.now list.old }
{
    counting::all(pattern, text, list).into()
}

// The count.
#[unsafe(no_mangle)]
pub extern "C" fn bedbloomer_support(pattern: Pattern, text: &[u16]) -> Answer
    ensures { result ≡ of_number (counted (input_verdict pattern (length text.now)) (leftmost pattern text.now)) }
{
    matching::support(pattern, text).into()
}

// The tally: the number of all occurrences. It never answers 9.
#[unsafe(no_mangle)]
pub extern "C" fn bedbloomer_tally(pattern: Pattern, text: &[u16]) -> Total
    ensures value { result ≡ of_total (tallied pattern text.now) }
    ensures not_nine { result.number ≡ 9 → ⊥ }
{
    counting::tally(pattern, text).into()
}

// How many occurrences start at each word. It never answers 9.
#[unsafe(no_mangle)]
pub extern "C" fn bedbloomer_starts(pattern: Pattern, text: &[u16], list: &mut [u64]) -> Answer
    ensures value { result ≡ of_number (started pattern text.now (length list.old)) }
    ensures list_after { list.new ≡ starts_written pattern text.now list.old }
    ensures not_nine { result.number ≡ 9 → ⊥ }
{
    counting::starts(pattern, text, list).into()
}
