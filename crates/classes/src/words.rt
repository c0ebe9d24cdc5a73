ghost use Rattle.std.specs.Prelude.{◌≡◌, ◌≤◌, length};
ghost use Rattle.classes.specs.Recoding.{recoded_word};
ghost use Rattle.classes.specs.Steps.Words.{Puts};

use crate::sets::ClassSet;

// What becomes of a word whose class byte meets the expression, or does not.
fn recoded_word(met: bool, code: u16, word: u16) -> u16
    ensures { result ≡ recoded_word met code word }
{
    if word == 0 {
        return 0;
    }
    if met { code } else { word }
}

// Writes the recoded words to the start of the list.
#[tactic(auto, using(crate::proofs::Writing::written_all))]
pub(crate) fn put_words(set: ClassSet, code: u16, text: &[u16], classes: &[u8], list: &mut [u16])
    requires { (length classes.now ≡ length text.now) × (length text.now ≤ length list.old) }
    ensures { Puts set code text.now classes.now list.old list.new }
{
    // for with an index: after `iter_mut` in a zip a proof knows no element of the list
    for (i, word) in text.iter().enumerate() {
        let met = set.contains(classes[i]);
        list[i] = recoded_word(met, code, *word);
    }
}
