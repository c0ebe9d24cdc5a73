ghost use Rattle.std.specs.Prelude.{◌≡◌};
ghost use Rattle.classes.specs.Steps.Expressions.{whole_part, Judges};

use crate::reader::{Part, alternative};
use crate::sets::ClassSet;
use pattern::Refusal;

// What the bytes are, by the part that they start with: the class bytes that meet them, or why they are refused.
fn whole_part(s: &[u8], start: Option<Part>) -> Result<ClassSet, Refusal>
    ensures { result ≡ whole_part s.now start }
{
    let part = start.ok_or(Refusal::NotExpression)?;
    if part.end < s.len() {
        return Err(Refusal::NotExpression);
    }
    if !part.fits {
        return Err(Refusal::TooDeep);
    }
    Ok(part.set)
}

// The class bytes that meet an expression: it has at most 200 bytes, and brackets nested at most 8 deep.
#[tactic(auto, using(crate::proofs::WholeParts::judgements))]
pub(crate) fn judge(s: &[u8]) -> Result<ClassSet, Refusal>
    ensures { Judges s.now result }
{
    if 200 < s.len() {
        return Err(Refusal::NotExpression);
    }
    whole_part(s, alternative(s, 0, 8))
}
