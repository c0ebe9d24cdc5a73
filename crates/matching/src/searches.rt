ghost use Rattle.std.specs.Prelude.{◌≡◌, ◌≤◌, length};
ghost use Rattle.matching.specs.Occurrence.{plain};
ghost use Rattle.matching.specs.Answers.{row_verdict, first_after, last_before};
ghost use Rattle.matching.specs.Steps.Settling.{Ready, Copied, AnsweredBack, answer_of};

use crate::mirror::{flipped, turned};
use crate::side::Side;
use pattern::{Pattern, Refusal};

// The first of the tests 1 to 5, 16, 6 and 7 that a pattern, a text and a row or marks fail.
#[tactic(auto, unfolding(crate::specs::Answers::row_verdict))]
pub fn row_verdict(pattern: Pattern, text: &[u16], row: &[u16]) -> Result<(), Refusal>
    ensures { result ≡ row_verdict pattern text.now row.now }
{
    pattern.check_with(text.len())?;
    if row.len() != pattern.count {
        return Err(Refusal::RowLength);
    }
    Ok(())
}

// The marks as sixteen places, those past them 0.
fn row_of(marks: &[u16]) -> [u16; 16]
    requires { length marks.now ≤ 16 }
    ensures { Copied marks.now result }
{
    let mut row = [0u16; 16];
    row[..marks.len()].copy_from_slice(marks);
    row
}

// The latest occurrence before the marks: the earliest past them in the pattern and the text read from the end.
fn search_back(f: &Pattern, text: &[u16], marks: [u16; 16]) -> Option<[u16; 16]>
    requires { Ready f.now (length text.now) }
    ensures { AnsweredBack f.now (plain f.now text.now) marks (answer_of result) }
{
    let m = f.count;
    let n = text.len();
    let g = turned(f);
    let side = Side {
        pattern: &g,
        text,
        mirrored: true,
    };
    let far = flipped(&marks, m, n);
    let row = side.search(far)?;
    Some(flipped(&row, m, n))
}

// The forward search (document 01: forward): the occurrence with each place past its mark that is earliest at every slot; the places past
// the slots are 0.
pub fn first_after(
    pattern: Pattern,
    text: &[u16],
    marks: &[u16],
) -> Result<Option<[u16; 16]>, Refusal>
    ensures { result ≡ first_after pattern text.now marks.now }
{
    row_verdict(pattern, text, marks)?;
    let side = Side {
        pattern: &pattern,
        text,
        mirrored: false,
    };
    Ok(side.search(row_of(marks)))
}

// The backward search (document 01: backward): the occurrence with each place before its mark that is latest at every slot; the places
// past the slots are 0.
pub fn last_before(
    pattern: Pattern,
    text: &[u16],
    marks: &[u16],
) -> Result<Option<[u16; 16]>, Refusal>
    ensures { result ≡ last_before pattern text.now marks.now }
{
    row_verdict(pattern, text, marks)?;
    Ok(search_back(&pattern, text, row_of(marks)))
}
