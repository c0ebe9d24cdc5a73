ghost use Rattle.std.specs.Prelude.{◌≡◌, ◌≤◌, length, ◌==◌};
ghost use Rattle.basics.specs.Choice.{pick};
ghost use Rattle.pattern.specs.declared.Pattern.{Pattern};
ghost use Rattle.matching.specs.Occurrence.{plain};
ghost use Rattle.counting.specs.Steps.Sentences.{Horizons};

// How far a row from the place before can go: to this place, where its word ends a sentence, else as far as one from it.
fn closing(word: u16, place: usize, last: usize) -> usize
    ensures { result ≡ pick (word == 0) place last }
{
    if word == 0 { place } else { last }
}

// The table of how far a row from each place can go: to where its sentence ends, or the text.
pub(crate) fn horizons(text: &[u16], lasts: &mut [u16])
    requires { (length text.now ≤ 20000) × (length text.now ≤ length lasts.old) }
    ensures { (f : Pattern) → Horizons (plain f text.now) lasts.new }
{
    let mut last = text.len();
    // the index is needed: it is itself the horizon that is kept
    for i in (0..text.len()).rev() {
        lasts[i] = last as u16;
        last = closing(text[i], i + 1, last);
    }
}
