ghost use Rattle.std.specs.Prelude.{◌≡◌, ℕ, ◌+◌, ◌-◌, ◌^◌, ◌<◌, ◌≤◌, min, length};
ghost use Rattle.basics.specs.Choice.{when};
ghost use Rattle.basics.specs.Sums.{total};
ghost use Rattle.counting.specs.Steps.Plans.{Plan, plan_pattern, plan_view, Within};
ghost use Rattle.counting.specs.Steps.Rows.{Ended, onward, Rising, Spread, Row};

use crate::gaps::Gap;
use crate::tables::Tables;

// Consecutive places of a text, and which rows are looked for there.
#[derive(Clone, Copy)]
pub(crate) struct Window {
    // how many places stand before it
    pub first: usize,
    // how many places it has
    pub places: usize,
    // at how many of them, from its first on, a row may start
    pub starts: usize,
    // the least place of the text at which a row may end
    pub from: usize,
}

// What the next number of a row is added to: the sum of those before it where sums are written, else nothing.
fn carried(summed: bool, sum: u128) -> u128
    ensures { result ≡ when summed sum }
{
    if summed { sum } else { 0 }
}

// The last slot's row, of the places from `first` + 1 on that it fits or not: its numbers or their sums.
fn ends(fits: &[u8], first: usize, from: usize, summed: bool, row: &mut [u128])
    requires room { length fits.now ≤ length row.old }
    requires short { (first ≤ 20000) × (length fits.now ≤ 20000) }
    ensures { Ended fits.now first from summed row.new }
{
    let mut count: u128 = 0;
    // the index is needed: it says whether a row may end there
    for i in 0..fits.len() {
        let here = u128::from(fits[i] == 1 && from <= first + i + 1);
        count = carried(summed, count) + here;
        row[i] = count;
    }
}

// At how many of n places, from the first on, the widest gap ends inside a row of m. Whether there are any is tested first, which short
// sentences need (docs/DECISIONS.md, 38).
fn inside(n: usize, high: usize, m: usize) -> usize
    requires { high < 65536 }
    ensures { result ≡ min n (m - (high + 1)) }
{
    if high + 1 < m { n.min(m - high - 1) } else { 0 }
}

// A slot's row, of the places that it fits or not, over the gap to the next slot, from the sums of that slot's row of m: its numbers or their
// sums. The index is needed: the row that is written is read further on. The two loops are one but for an index each (docs/DECISIONS.md, 38).
fn spread(fits: &[u8], gap: Gap, m: usize, summed: bool, row: &mut [u128])
    requires room { m ≤ length row.old }
    requires rising { Rising m row.old }
    requires small { (i : ℕ) → i ≤ length fits.now → total i (onward fits.now gap.low gap.high m row.old) 0 < 2 ^ 128 }
    requires short { (gap.low ≤ gap.high) × (length fits.now ≤ m) × (m ≤ 20000) }
    ensures { Spread fits.now gap.low gap.high m summed row.old row.new }
{
    let low = usize::from(gap.low);
    let high = usize::from(gap.high);
    // from the first places on the widest gap ends inside the next slot's row, from the others past it
    let inner = inside(fits.len(), high, m);
    let mut sum: u128 = 0;
    for i in 0..inner {
        let here = if fits[i] == 1 {
            row[i + high + 1] - row[i + low]
        } else {
            0
        };
        sum = carried(summed, sum) + here;
        row[i] = sum;
    }
    for k in inner..fits.len() {
        let here = if fits[k] == 1 {
            row[m - 1] - row[(k + low).min(m - 1)]
        } else {
            0
        };
        sum = carried(summed, sum) + here;
        row[k] = sum;
    }
}

// The first slot's row of a window: how many rows of places start at each. Of the slots after it the sums are written, as the slot before
// each needs them.
pub(crate) fn ways(tables: &Tables, w: Window, row: &mut [u128])
    requires plan { Plan tables.now }
    requires within { Within tables.now.places w }
    requires room { w.places < length row.old }
    ensures { (g : Plan tables.now) → Row (plan_pattern g) (plan_view g) w (tables.now.slots - 1) 0 row.new }
{
    let last = tables.slots - 1;
    // how far the slot can be from the first, and how many places its row has
    let mut reach = tables.outline.reach;
    let mut n = w.places.min(w.starts + reach);
    ends(
        tables.fits_of(last, w.first, n),
        w.first,
        w.from,
        0 < last,
        row,
    );
    // the index is needed: slot j is reached over the gap of slot j + 1
    for j in (0..last).rev() {
        let gap = tables.outline.gaps[j + 1];
        reach = reach - usize::from(gap.high) - 1;
        let k = w.places.min(w.starts + reach);
        spread(tables.fits_of(j, w.first, k), gap, n, 0 < j, row);
        n = k;
    }
    // and a 0 after them
    row[n] = 0;
}
