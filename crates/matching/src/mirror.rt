ghost use Rattle.std.specs.Prelude.{◌<◌, ◌≤◌};
ghost use Rattle.matching.specs.Steps.Turning.{Turned, Flipped, Gap};

use pattern::Pattern;

// The slot whose gap stands before slot j of the pattern read from the end.
fn gap_of(j: usize, m: usize) -> usize
    requires { j < m }
    ensures { Gap m j result }
{
    if j == 0 { 0 } else { m - j }
}

// The pattern read from the end: its slots in reverse, each with the gap after it. (Its count stands in the contract, since Pattern is C's
// struct, whose count may be any; past here a `Side` holds that.)
pub(crate) fn turned(f: &Pattern) -> Pattern
    requires { (1 ≤ f.now.count) × (f.now.count ≤ 16) }
    ensures { Turned f.now result }
{
    let m = f.count;
    let mut slots = f.slots;
    // for over indices: each slot takes one from the other end and the gap of a third, so an iterator would be no plainer
    for j in 0..m {
        let gap = f.slots[gap_of(j, m)];
        slots[j] = f.slots[m - 1 - j].with_gap(gap.low, gap.high);
    }
    Pattern { slots, ..*f }
}

// The row read from the end of a text of n words, 0 past the m slots.
pub(crate) fn flipped(row: &[u16; 16], m: usize, n: usize) -> [u16; 16]
    requires { (m ≤ 16) × (n ≤ 20000) }
    ensures { Flipped m n row.now result }
{
    let mut p = [0u16; 16];
    // for over indices: after `iter_mut` in a zip a proof knows no element of the row
    for j in 0..m {
        p[j] = (n + 1).saturating_sub(row[m - 1 - j] as usize) as u16;
    }
    p
}
