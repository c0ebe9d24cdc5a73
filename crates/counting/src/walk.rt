ghost use Rattle.std.specs.Prelude.{◌≡◌, ◌+◌, ◌*◌, ◌<◌, ◌≤◌, length, take, slice_index};
ghost use Rattle.std.proofs.Math.Seq.{paste};
ghost use Rattle.counting.specs.Steps.Walks.{Walk, Walked};

use crate::tables::Tables;
use basics::put_row;

// What leads a walk through the rows of a window: the pattern's gaps, the window's table, and how many places stand before it.
#[derive(Clone, Copy)]
pub(crate) struct Trail<'a> {
    pub tables: Tables<'a>,
    pub next: &'a [u16; 320016],
    pub first: usize,
}

// The table's entry for slot j at an index.
fn entry(next: &[u16; 320016], j: usize, i: usize) -> usize
    requires { (j < 16) × (i ≤ 20000) }
    ensures { (result ≡ slice_index next.now (j * 20001 + i)) × (result < 65536) }
{
    usize::from(next[j * 20001 + i])
}

// Writes a row of m places as row number k of a list, counted from 0.
fn put_at(list: &mut [u16], k: usize, row: &[u16], m: usize)
    requires { (m ≤ length row.now) × (k * m + m ≤ length list.old) }
    ensures { list.new ≡ paste list.old (k * m) row.now m }
{
    put_row(&mut list[k * m..], row, m);
}

impl Trail<'_> {
    // Writes the rows that start at the indexes x to y of slot j, after the rows done, and answers how many are done then.
    // Each begins with the row's places before slot j, which stay. What stays the same is in the trail: the six others change at each call.
    pub(crate) fn walk(
        &self,
        j: usize,
        x: usize,
        y: usize,
        row: &mut [u16],
        done: usize,
        list: &mut [u16],
    ) -> usize
        requires { (Walk self.now j x y done (length list.old)) × (length row.old ≡ 16) }
        ensures walked { (w : Walk self.now j x y done (length list.old)) → Walked w row.old list.old result list.new }
        ensures row_unchanged { take j row.new ≡ take j row.old }
    {
        let m = self.tables.slots;
        let last = j + 1 == m;
        let next = self.next;
        let first = self.first;
        let mut rows = done;
        let mut q = entry(next, j, x);
        // while: each step skips to the next index at which a row starts, so no index is counted
        while q <= y {
            row[j] = (first + q + 1) as u16;
            if last {
                put_at(list, rows, row, m);
                rows += 1;
            } else {
                let k = j + 1;
                let gap = self.tables.outline.gaps[k];
                let a = q + usize::from(gap.low) + 1;
                let b = q + usize::from(gap.high) + 1;
                rows = self.walk(k, a, b, row, rows, list);
            }
            q = entry(next, j, q + 1);
        }
        rows
    }
}
