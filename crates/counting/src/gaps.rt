ghost use Rattle.std.specs.Prelude.{ℕ, ◌<◌, ◌≡◌, ◌+◌, ◌-◌, ◌≤◌, min, ◌&&◌, nat_le};
ghost use Rattle.pattern.specs.Accepted.{Accepted};
ghost use Rattle.matching.specs.Spans.{distance};
ghost use Rattle.counting.specs.Steps.Plans.{gap_at, Gaps, Outlined};

use basics::smaller;
use pattern::Pattern;

// The gap before a slot, at its least and at its widest.
#[derive(Clone, Copy)]
pub(crate) struct Gap {
    pub low: u16,
    pub high: u16,
}

// The gap before each slot.
fn gaps_of(pattern: &Pattern) -> [Gap; 16]
    requires { pattern.now.count ≤ 16 }
    ensures { Gaps pattern.now result }
{
    let mut gaps = [Gap { low: 0, high: 0 }; 16];
    // of the 16 slots the first `count` are the pattern's: a zip over them would cut both arrays first, and be no plainer
    for j in 0..pattern.count {
        let slot = &pattern.slots[j];
        gaps[j] = Gap {
            low: slot.low,
            high: slot.high,
        };
    }
    gaps
}

// The least and the greatest distance from the first place of a row to the last of m, with these gaps.
fn distances(gaps: &[Gap; 16], m: usize) -> (usize, usize)
    requires slots { (1 ≤ m) × (m ≤ 16) }
    requires narrow { (k : ℕ) → k < m → ((gap_at gaps.now k).low ≤ 63) × ((gap_at gaps.now k).high ≤ 63) }
    ensures near { result.0 ≡ distance (λ j. (gap_at gaps.now j).low) (m - 1) }
    ensures far { result.1 ≡ distance (λ j. (gap_at gaps.now j).high) (m - 1) }
{
    let mut near = 0;
    let mut far = 0;
    // the promise, `distance`, is by the number of the slot, as the loop is: sums over gaps[1..m] would be no plainer
    for k in 1..m {
        near += usize::from(gaps[k].low) + 1;
        far += usize::from(gaps[k].high) + 1;
    }
    (near, far)
}

// Whether the span limits cannot bind: every row of n places keeps to them whose first and last are `near` to `far` apart.
fn unbound(least: usize, most: usize, near: usize, far: usize, n: usize) -> bool
    requires { (near ≤ 960) × (far ≤ 960) }
    ensures { result ≡ (nat_le least (near + 1) && nat_le (min (far + 1) n) most) }
{
    least <= near + 1 && smaller(far + 1, n) <= most
}

// A pattern as the runs over n places are handed it.
#[derive(Clone, Copy)]
pub(crate) struct Outline {
    // the gap before each slot
    pub gaps: [Gap; 16],
    // how far the last slot can be from the first, and how many places a row can span
    pub reach: usize,
    pub span: usize,
    pub least: usize,
    // whether the span limits cannot bind
    pub unbound: bool,
}

impl Outline {
    // What the runs over n places are handed of a pattern.
    pub(crate) fn of(pattern: &Pattern, n: usize) -> Self
        requires { Accepted pattern.now }
        ensures { Outlined pattern.now n result }
    {
        let gaps = gaps_of(pattern);
        let (near, far) = distances(&gaps, pattern.count);
        let least = usize::from(pattern.least);
        let most = usize::from(pattern.most);
        Outline {
            gaps,
            reach: far,
            span: most.min(far + 1),
            least,
            unbound: unbound(least, most, near, far, n),
        }
    }
}
