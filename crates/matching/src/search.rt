ghost use Rattle.matching.specs.Steps.Settling.{Entries, Started};

use crate::bounds::next;
use crate::side::Side;

// Raises the first m places of the row by one, if they are in a text of n words then. (A bool, as below.)
fn start(m: usize, n: usize, p: &mut [u16; 16]) -> bool
    requires { Entries m n p.old }
    ensures { Started m n p.old (record { found = result; places = p.new }) }
{
    for x in &mut p[..m] {
        if n <= *x as usize {
            return false;
        }
        *x += 1;
    }
    true
}

// What raises a row says by a bool whether there is an occurrence, for speed: a pattern and a row handed over by value cost some 15 ns a
// row (docs/DECISIONS 37).
impl<'a> Side<'a> {
    ghost use Rattle.std.specs.Prelude.{◌≤◌, ◌<◌};
    ghost use Rattle.matching.specs.Occurrence.{Unbroken, SentenceIn, at};
    ghost use Rattle.matching.specs.Steps.Settling.{Visited, loose, Placed, Spare, Settled, Answered, answer_of};
    ghost use Rattle.matching.specs.Steps.Sides.{sight};

    // The least place of the slot j that its own, its neighbours and the text's words allow.
    fn visit(&self, p: &[u16; 16], j: usize) -> usize
        requires { (j < self.now.pattern.now.count) × (1 ≤ at p.now j) }
        ensures { Visited self.now.pattern.now (loose (sight self.now)) p.now j result }
    {
        self.first(j, self.need(p, j))
    }

    // Raises the row to the earliest occurrence at or after it, as if no sentence ended, if there is one: the slots are visited in turn
    // until none asks more.
    fn settle(&self, p: &mut [u16; 16]) -> bool
        requires { Placed self.now.pattern.now.count p.old }
        ensures { Settled self.now.pattern.now (loose (sight self.now)) p.old (record { found = result; places = p.new }) }
    {
        // A copy, which no write to the row can change, stays in registers.
        let side = *self;
        let m = side.pattern.count;
        let mut calm = 0;
        let mut j = 0;
        // while: the slots are visited round and round until none has moved, so no index is counted.
        while calm < m {
            let q = side.visit(p, j);
            if side.text.len() < q {
                return false;
            }
            if q == p[j] as usize {
                calm += 1;
            } else {
                p[j] = q as u16;
                calm = 0;
            }
            j = next(j, m);
        }
        true
    }

    // Raises the row to the earliest occurrence at or after it, if there is one: where a sentence ends inside a row, no occurrence starts
    // before that place. No sentence ends past the row's first place and before `clear`.
    fn keep(&self, clear: usize, p: &mut [u16; 16]) -> bool
        requires placed { Placed self.now.pattern.now.count p.old }
        requires unbroken { Unbroken (sight self.now).ends (at p.old 0) clear }
        ensures { Settled self.now.pattern.now (sight self.now) p.old (record { found = result; places = p.new }) }
    {
        let j = self.pattern.count - 1;
        let mut from = clear;
        // while: each look skips to a sentence end, so no index is counted.
        while self.settle(p) {
            let to = p[j] as usize;
            let Some(end) = self.last_end(from.max(p[0] as usize + 1), to) else {
                return true;
            };
            p[0] = end as u16;
            from = to;
        }
        false
    }

    // Raises the row to the earliest occurrence past it, if there is one. No sentence ends past its first place and before `clear`.
    fn advance(&self, clear: usize, p: &mut [u16; 16]) -> bool
        requires spare { Spare self.now.pattern.now.count p.old }
        requires unbroken { Unbroken (sight self.now).ends (at p.old 0) clear }
        ensures { Answered self.now.pattern.now (sight self.now) p.old (record { found = result; places = p.new }) }
    {
        start(self.pattern.count, self.text.len(), p) && self.keep(clear, p)
    }

    // Raises the row, inside which no sentence ends, to the earliest occurrence past it, if there is one.
    pub(crate) fn follow(&self, p: &mut [u16; 16]) -> bool
        requires spare { Spare self.now.pattern.now.count p.old }
        requires sentence { SentenceIn self.now.pattern.now (sight self.now) p.old }
        ensures { Answered self.now.pattern.now (sight self.now) p.old (record { found = result; places = p.new }) }
    {
        self.advance(p[self.pattern.count - 1] as usize, p)
    }

    // The earliest occurrence past the marks.
    pub(crate) fn search(&self, marks: [u16; 16]) -> Option<[u16; 16]>
        requires { Spare self.now.pattern.now.count marks }
        ensures { Answered self.now.pattern.now (sight self.now) marks (answer_of result) }
    {
        let mut places = marks;
        self.advance(0, &mut places).then_some(places)
    }
}
