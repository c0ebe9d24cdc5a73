// Whether a row is an occurrence (document 01: a hit), and the part of the text that it spans. The meaning stands in matching/specs.
#![tactic(auto)]

mod conditions;

ghost use Rattle.std.specs.Prelude.{◌≡◌, ◌+◌, ◌*◌};
ghost use Rattle.excerpts.specs.Answers.{is_occurrence, excerpt_of, excerpt_start};

use conditions::{gap, sentence, span, word};
use matching::row_verdict;
use pattern::{Pattern, Refusal};

// Whether the row is an occurrence (document 01: test): word, gap and span in the order of Definition 3, then the sentence.
#[tactic(auto, using(crate::proofs::Testing::steps))]
pub fn is_occurrence(pattern: Pattern, text: &[u16], row: &[u16]) -> Result<bool, Refusal>
    ensures { result ≡ is_occurrence pattern text.now row.now }
{
    row_verdict(pattern, text, row)?;
    Ok(
        word(&pattern, text, row)
            && gap(&pattern, row)
            && span(&pattern, row)
            && sentence(&pattern, text, row),
    )
}

// The excerpt (document 01: citation): the very part of the caller's text from the row's first place to its last; empty where the row is no
// occurrence. (No Option: the clauses, `ref_ptr_value` too, promise the empty part, and C takes its length.)
pub fn excerpt<'a, 'b>(pattern: Pattern, text: &'a [u16], row: &'b [u16]) -> &'a [u16]
    ensures result_value { result.now ≡ excerpt_of pattern text.now row.now }
    ensures ref_ptr_value { result.ref_ptr ≡ (text.entry.ref_ptr.0, excerpt_start pattern text.now row.now * 2 + text.entry.ref_ptr.1) }
{
    let occurs = is_occurrence(pattern, text, row).unwrap_or(false);
    if !occurs {
        return &text[0..0];
    }
    let start = row[0] as usize - 1;
    let end = row[pattern.count - 1] as usize;
    &text[start..end]
}
