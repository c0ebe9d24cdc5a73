ghost use Rattle.std.specs.Prelude.{◌≡◌, ◌≤◌, true, length};
ghost use Rattle.basics.specs.Written.{written};
ghost use Rattle.counting.specs.Answers.{all_listed, all_written};
ghost use Rattle.counting.specs.Steps.Plans.{plan_rows};
ghost use Rattle.counting.specs.Steps.Listings.{Put, PutWindow, WindowPut};

use crate::column::count;
use crate::reach::reach_all;
use crate::tables::Tables;
use crate::walk::Trail;
use crate::window::Window;
use pattern::{Pattern, Refusal};

// Writes the occurrences that start in a window after the rows done, by a table of the window, and answers how many are done then.
fn put_window(
    tables: &Tables,
    w: Window,
    next: &mut [u16; 320016],
    done: usize,
    list: &mut [u16],
) -> usize
    requires { PutWindow tables.now w done (length list.old) }
    ensures { (g : PutWindow tables.now w done (length list.old)) → WindowPut g list.old result list.new }
{
    reach_all(tables, w, next);
    let trail = Trail {
        tables: *tables,
        next,
        first: w.first,
    };
    let mut row = [0u16; 16];
    trail.walk(0, 0, w.starts - 1, &mut row, done, list)
}

// The two functions that follow go over the windows of `whole` and `each`: of a closure that both kinds were handed, a proof would not know
// what it had written to the column or the list, and the windows are made by the same methods.

// Writes all occurrences where the span limits cannot bind: by a table for each sentence.
fn put_whole(tables: &Tables, next: &mut [u16; 320016], list: &mut [u16])
    requires put { Put tables.now (length list.old) }
    requires spans { tables.now.outline.unbound ≡ true }
    ensures { (g : Put tables.now (length list.old)) → list.new ≡ written tables.now.slots (plan_rows g.plan) list.old }
{
    let mut rows = 0;
    let mut i = 0;
    // while: each step skips to the next sentence, so no index is counted
    while i < tables.places {
        let w = tables.sentence(i);
        rows = put_window(tables, w, next, rows, list);
        i += w.places;
    }
}

// Writes all occurrences of any pattern: by a table for each first place, of the places that a row can span in its sentence.
fn put_each(tables: &Tables, next: &mut [u16; 320016], list: &mut [u16])
    requires put { Put tables.now (length list.old) }
    ensures { (g : Put tables.now (length list.old)) → list.new ≡ written tables.now.slots (plan_rows g.plan) list.old }
{
    let mut rows = 0;
    // the index is needed: the window starts there
    for i in 0..tables.places {
        if tables.fits[i] == 1 {
            rows = put_window(tables, tables.start(i), next, rows, list);
        }
    }
}

// Writes all occurrences. Which of the two is run is said by the pattern and the text, not chosen by a caller.
fn put_all(tables: &Tables, list: &mut [u16])
    requires { Put tables.now (length list.old) }
    ensures { (g : Put tables.now (length list.old)) → list.new ≡ written tables.now.slots (plan_rows g.plan) list.old }
{
    let mut next = [0u16; 320016];
    if tables.outline.unbound {
        put_whole(tables, &mut next, list);
    } else {
        put_each(tables, &mut next, list);
    }
}

// All occurrences, each once, first place first, ties by the next slot, and how many (document 01: the full list).
pub fn all(pattern: Pattern, text: &[u16], list: &mut [u16]) -> Result<usize, Refusal>
    ensures value { result ≡ all_listed pattern text.now (length list.old) }
    ensures list_after { list.new ≡ all_written pattern text.now list.old }
{
    pattern.check_with(text.len())?;
    let mut fits = [0u8; 320000];
    let mut lasts = [0u16; 20000];
    let tables = Tables::of(&pattern, text, &mut fits, &mut lasts);
    let total = count(&tables);
    let room = list.len() / pattern.count;
    if (room as u128) < total {
        // 0: the list is at no place of the text (`all_listed`)
        return Err(Refusal::ListLength(0));
    }
    put_all(&tables, list);
    Ok(total as usize)
}
