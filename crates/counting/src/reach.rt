ghost use Rattle.std.specs.Prelude.{◌≡◌, ◌+◌, ◌<◌, ◌≤◌, length};
ghost use Rattle.counting.specs.Steps.Plans.{Plan, plan_pattern, plan_view, Within};
ghost use Rattle.counting.specs.Steps.Tables.{ends, leads, Reached, Tabled};

use crate::tables::Tables;
use crate::window::Window;

// These three go over the slots as `ends`, `spread` and `ways` do, but down the indexes, keeping the next one that leads on, where those go
// up and subtract sums: no function of both would be plainer. The table is fixed memory of 320,016 entries of 16 bits, with 65535 where no
// index is left; Option<u16> would take twice that. It is flat, slot j from j * 20001 on: a slot's entries are written while the next slot's
// are read, so that rows of their own would have to be parted at each slot, and be no plainer.

// The entries of the last slot, of the places from `first` + 1 on that it fits or not.
fn reach_last(fits: &[u8], first: usize, from: usize, base: usize, next: &mut [u16])
    requires { (first ≤ 20000) × (length fits.now ≤ 20000) × (base + length fits.now < length next.old) }
    ensures { Reached (ends fits.now first from) (length fits.now) base next.old next.new }
{
    let mut q: u16 = 65535;
    // the index is needed: it is what is written
    for i in (0..fits.len()).rev() {
        if fits[i] == 1 && from <= first + i + 1 {
            q = i as u16;
        }
        next[base + i] = q;
    }
    next[base + fits.len()] = 65535;
}

// The entries of a slot, of the places that it fits or not, from those of the next slot with m. The index is needed: it is what is written.
// There are two loops for the reason that `spread` has them (docs/DECISIONS.md, 38).
fn reach_on(fits: &[u8], low: usize, high: usize, m: usize, base: usize, next: &mut [u16])
    requires { (low ≤ 63) × (high ≤ 63) × (length fits.now ≤ 20000) × (m ≤ 20000) × (base + 20001 + m < length next.old) }
    ensures { Reached (leads fits.now low high m base next.old) (length fits.now) base next.old next.new }
{
    let after = base + 20001;
    // from the first indexes on the least gap ends inside the next slot's entries, from the others at their end
    let inner = fits.len().min(m.saturating_sub(low + 1));
    let mut q: u16 = 65535;
    for k in (inner..fits.len()).rev() {
        if fits[k] == 1 && usize::from(next[after + m]) <= k + high + 1 {
            q = k as u16;
        }
        next[base + k] = q;
    }
    for i in (0..inner).rev() {
        if fits[i] == 1 && usize::from(next[after + i + low + 1]) <= i + high + 1 {
            q = i as u16;
        }
        next[base + i] = q;
    }
    next[base + fits.len()] = 65535;
}

// The table of a window.
#[tactic(auto, using(crate::proofs::Counting::back_fits, crate::proofs::Counting::back_on, crate::proofs::Counting::back_small))]
pub(crate) fn reach_all(tables: &Tables, w: Window, next: &mut [u16; 320016])
    requires plan { Plan tables.now }
    requires within { Within tables.now.places w }
    ensures { (g : Plan tables.now) → Tabled (plan_pattern g) (plan_view g) w 0 next.new }
{
    let last = tables.slots - 1;
    // how far the slot can be from the first, and how many indexes it has
    let mut reach = tables.outline.reach;
    let mut n = w.places.min(w.starts + reach);
    reach_last(
        tables.fits_of(last, w.first, n),
        w.first,
        w.from,
        last * 20001,
        next,
    );
    // the index is needed: slot j is reached over the gap of slot j + 1
    for j in (0..last).rev() {
        let gap = tables.outline.gaps[j + 1];
        let low = usize::from(gap.low);
        let high = usize::from(gap.high);
        reach = reach - high - 1;
        let k = w.places.min(w.starts + reach);
        reach_on(tables.fits_of(j, w.first, k), low, high, n, j * 20001, next);
        n = k;
    }
}
