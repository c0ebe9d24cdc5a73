use crate::side::Side;

impl<'a> Side<'a> {
    ghost use Rattle.std.specs.Prelude.{◌≡◌, ◌<◌, ◌+◌, ◌≤◌, length};
    ghost use Rattle.pattern.specs.Patterns.{slot_at};
    ghost use Rattle.matching.specs.Occurrence.{word_at, takes_at, ends_at};
    ghost use Rattle.matching.specs.Steps.Bounds.{First, LastEnd};
    ghost use Rattle.matching.specs.Steps.Turning.{seen};

    // The word at a place, counted from the text's end where it is mirrored.
    fn word(&self, place: usize) -> u16
        requires { (1 ≤ place) × (place ≤ length self.now.text.now) }
        ensures { result ≡ word_at (seen self.now.mirrored self.now.text.now) place }
    {
        if self.mirrored {
            return self.text[self.text.len() - place];
        }
        self.text[place - 1]
    }

    // The first place from `from` on whose word the slot j takes, or one past the text: no Option, since its caller compares a place with
    // the text's length and with the row in either case.
    pub(crate) fn first(&self, j: usize, from: usize) -> usize
        requires { (j < self.now.pattern.now.count) × (1 ≤ from) }
        ensures { First (takes_at (slot_at self.now.pattern.now j) (seen self.now.mirrored self.now.text.now)) (length self.now.text.now) from result }
    {
        let slot = &self.pattern.slots[j];
        let end = self.text.len() + 1;
        // for: with `find` it proved too, and the program took 7 to 17 % more instructions
        for p in from..end {
            if slot.takes(self.word(p)) {
                return p;
            }
        }
        end.max(from)
    }

    // The last place from `from` on and before `to` at which a sentence ends.
    pub(crate) fn last_end(&self, from: usize, to: usize) -> Option<usize>
        requires { (1 ≤ from) × (to ≤ length self.now.text.now + 1) }
        ensures { LastEnd (ends_at (seen self.now.mirrored self.now.text.now)) from to result }
    {
        // for: std has a lemma for `find` over a range, and none over a reversed one
        for p in (from..to).rev() {
            if self.word(p) == 0 {
                return Some(p);
            }
        }
        None
    }
}
