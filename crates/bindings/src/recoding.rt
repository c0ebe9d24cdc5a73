ghost use Rattle.bindings.specs.Answers.{RecodesAs};

use crate::answers::Answer;

// A text recoded by word class.
#[unsafe(no_mangle)]
pub extern "C" fn bedbloomer_recode(
    text: &[u16],
    classes: &[u8],
    expression: &[u8],
    code: u16,
    out: &mut [u16],
) -> Answer
    ensures { RecodesAs text.now classes.now expression.now code out.old result out.new }
{
    classes::recode(text, classes, expression, code, out).into()
}
