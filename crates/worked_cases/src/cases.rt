// A case's pattern. (The programs share no crate, so that each reads alone: nine_texts has such a case of its own.)
use crate::tables::Case;
use pattern::Pattern;

impl Case {
    // The pattern of the text; a slot that is refused would be missing.
    pub fn pattern(self) -> Pattern {
        let mut pattern = Pattern::new().with_span(self.least, self.most);
        for (low, high, excluding, words) in self.slots {
            pattern = pattern
                .with_slot(*low, *high, *excluding, words)
                .unwrap_or(pattern);
        }
        pattern
    }
}
