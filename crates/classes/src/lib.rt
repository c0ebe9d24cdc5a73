// A text recoded by word class. What the call answers is defined in specs/.
#![tactic(auto)]

mod expressions;
mod reader;
mod sets;
mod words;

ghost use Rattle.classes.specs.Recoding.{Recodes};

use crate::expressions::judge;
use crate::words::put_words;
use pattern::{Pattern, Refusal};

// Writes the text to the start of the output list, with the code for each word whose class byte meets the expression. A 0 stays 0.
// (Five arguments, as C gives them; a refusal for the code or the list has the place 0: `Recodes` and the table promise it.)
#[tactic(auto, using(crate::proofs::Recodings::refusals))]
pub fn recode(
    text: &[u16],
    classes: &[u8],
    expression: &[u8],
    code: u16,
    out: &mut [u16],
) -> Result<usize, Refusal>
    ensures { Recodes text.now classes.now expression.now code out.old result out.new }
{
    let n = text.len();
    if Pattern::TEXT < n {
        return Err(Refusal::TextLength);
    }
    if n != classes.len() {
        return Err(Refusal::UnequalLengths);
    }
    if code == 0 {
        return Err(Refusal::ZeroWord(0));
    }
    let set = judge(expression)?;
    if out.len() < n {
        return Err(Refusal::ListLength(0));
    }
    put_words(set, code, text, classes, out);
    Ok(n)
}
