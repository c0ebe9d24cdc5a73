ghost use Rattle.std.specs.Prelude.{◌≡◌};
ghost use Rattle.pattern.specs.Patterns.{empty_pattern, with_span};
ghost use Rattle.pattern.specs.Adding.{extended, pattern_after};
ghost use Rattle.pattern.specs.Tests.{pattern_verdict, input_verdict};
ghost use Rattle.merging.specs.Merging.{merged, pattern_of};
ghost use Rattle.bindings.specs.Answers.{of_verdict, pattern_or};

use crate::answers::{Answer, Made};
use merging::merge;
use pattern::Pattern;

// The pattern without slots that has these span limits.
#[unsafe(no_mangle)]
pub extern "C" fn bedbloomer_pattern_of(least: u16, most: u16) -> Pattern
    ensures { result ≡ with_span empty_pattern least most }
{
    Pattern::new().with_span(least, most)
}

// The pattern with one slot more, its words in rising order, each once.
#[unsafe(no_mangle)]
pub extern "C" fn bedbloomer_with_slot(
    pattern: Pattern,
    low: u16,
    high: u16,
    excluding: bool,
    words: &[u16],
) -> Made
    ensures value { result ≡ pattern_or pattern (extended pattern low high excluding words.now) }
    ensures made { result.pattern ≡ pattern_after pattern (extended pattern low high excluding words.now) }
{
    Made::or(pattern.with_slot(low, high, excluding, words), pattern)
}

// The first of the tests 1 to 5 and 16 that the pattern fails.
#[unsafe(no_mangle)]
pub extern "C" fn bedbloomer_check_pattern(pattern: Pattern) -> Answer
    ensures { result ≡ of_verdict (pattern_verdict pattern) }
{
    pattern.check().into()
}

// The first of the tests 1 to 5, 16 and 6 that the pattern and a text of so many words fail.
#[unsafe(no_mangle)]
pub extern "C" fn bedbloomer_check(pattern: Pattern, words: usize) -> Answer
    ensures { result ≡ of_verdict (input_verdict pattern words) }
{
    pattern.check_with(words).into()
}

// Two patterns into one.
#[unsafe(no_mangle)]
pub extern "C" fn bedbloomer_merge(first: Pattern, second: Pattern) -> Made
    ensures value { result ≡ pattern_or empty_pattern (merged first second) }
    ensures made { result.pattern ≡ pattern_of (merged first second) }
{
    Made::or(merge(first, second), Pattern::new())
}
