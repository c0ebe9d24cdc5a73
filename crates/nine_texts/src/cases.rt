// A case's pattern, and rows as the runs take them. (The programs share no crate, so that each reads alone.)
use crate::tables::Case;
use pattern::Pattern;

impl Case {
    // The pattern of the text; a slot that is refused would be missing.
    pub fn pattern(self) -> Pattern {
        let mut pattern = Pattern::new().with_span(self.least, self.most);
        for [low, high, word] in self.slots {
            pattern = pattern
                .with_slot(*low, *high, false, &[*word])
                .unwrap_or(pattern);
        }
        pattern
    }
}

// The first n entries of a list, or the whole of a shorter one.
pub fn first(list: &[u16], n: usize) -> &[u16] {
    &list[..n.min(list.len())]
}

// The row with zeros after it, as a search gives it.
pub fn padded(row: &[u16]) -> [u16; 16] {
    let n = row.len().min(16);
    let mut places = [0u16; 16];
    places[..n].copy_from_slice(&row[..n]);
    places
}
