ghost use Rattle.std.specs.Prelude.{◌<◌};
ghost use Rattle.matching.specs.Steps.Bounds.{Next};

use crate::side::Side;

// Each asks that j is one of the slots: a type of such numbers would be made anew at each step, and be no plainer.
impl<'a> Side<'a> {
    ghost use Rattle.matching.specs.Steps.Bounds.{Behind, Ahead, Least};
    ghost use Rattle.matching.specs.Steps.Settling.{Bound};

    // The least place that the slot before allows to the slot j in the row; to the first slot, that the last allows.
    fn behind(&self, row: &[u16; 16], j: usize) -> usize
        requires { j < self.now.pattern.now.count }
        ensures { Least (Behind self.now.pattern.now row.now j) result }
    {
        let f = self.pattern;
        if j == 0 {
            return (row[f.count - 1] as usize + 1).saturating_sub(f.most as usize);
        }
        row[j - 1] as usize + f.slots[j].low as usize + 1
    }

    // The least place that the slot after allows to the slot j in the row; to the last slot, that the first allows.
    fn ahead(&self, row: &[u16; 16], j: usize) -> usize
        requires { j < self.now.pattern.now.count }
        ensures { Least (Ahead self.now.pattern.now row.now j) result }
    {
        let f = self.pattern;
        if j + 1 == f.count {
            return row[0] as usize + f.least as usize - 1;
        }
        (row[j + 1] as usize).saturating_sub(f.slots[j + 1].high as usize + 1)
    }

    // The least place that its own and its neighbours in the row allow to the slot j.
    pub(crate) fn need(&self, row: &[u16; 16], j: usize) -> usize
        requires { j < self.now.pattern.now.count }
        ensures { Least (Bound self.now.pattern.now row.now j) result }
    {
        let low = self.behind(row, j);
        let high = self.ahead(row, j);
        (row[j] as usize).max(low).max(high)
    }
}

// The slot after, and after the last the first.
pub(crate) fn next(j: usize, m: usize) -> usize
    requires { j < m }
    ensures { Next m j result }
{
    if j + 1 == m { 0 } else { j + 1 }
}
