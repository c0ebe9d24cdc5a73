ghost use Rattle.std.specs.Prelude.{◌≡◌, ◌^◌, ◌<◌, true, length, sum};
ghost use Rattle.matching.specs.Occurrence.{plain};
ghost use Rattle.counting.specs.Steps.Inputs.{Input};
ghost use Rattle.counting.specs.Steps.Plans.{Plan, plan_pattern, plan_view, plan_rows};
ghost use Rattle.counting.specs.Steps.Rows.{Blank, Column};

use crate::tables::Tables;
use crate::window::ways;
use pattern::Pattern;

// The column where the span limits cannot bind: a run for each sentence.
fn whole(tables: &Tables, column: &mut [u128])
    requires plan { Plan tables.now }
    requires spans { tables.now.outline.unbound ≡ true }
    requires room { tables.now.places < length column.old }
    ensures { (g : Plan tables.now) → Column (plan_pattern g) (plan_view g) column.new }
{
    let mut i = 0;
    // while: each step skips to the next sentence, so no index is counted
    while i < tables.places {
        let w = tables.sentence(i);
        ways(tables, w, &mut column[i..]);
        i += w.places;
    }
}

// The column for any pattern, from one of zeros: a run for each first place, over the places that a row can span in its sentence.
fn each(tables: &Tables, column: &mut [u128])
    requires plan { Plan tables.now }
    requires blank { Blank tables.now.places column.old }
    ensures { (g : Plan tables.now) → Column (plan_pattern g) (plan_view g) column.new }
{
    let mut row = [0u128; 1000];
    // the index is needed: the window starts there
    for i in 0..tables.places {
        if tables.fits[i] == 1 {
            ways(tables, tables.start(i), &mut row);
            column[i] = row[0];
        }
    }
}

// How many occurrences start at each place, in a column of zeros. Which of the two is run is said by the pattern and the text, not chosen
// by a caller.
fn fill(tables: &Tables, column: &mut [u128])
    requires plan { Plan tables.now }
    requires blank { Blank tables.now.places column.old }
    ensures { (g : Plan tables.now) → Column (plan_pattern g) (plan_view g) column.new }
{
    if tables.outline.unbound {
        whole(tables, column);
    } else {
        each(tables, column);
    }
}

// The sum of numbers.
pub(crate) fn sum_of(numbers: &[u128]) -> u128
    requires { sum numbers.now < 2 ^ 128 }
    ensures { result ≡ sum numbers.now }
{
    numbers.iter().sum()
}

// The number of all occurrences.
pub(crate) fn count(tables: &Tables) -> u128
    requires { Plan tables.now }
    ensures { (g : Plan tables.now) → result ≡ length (plan_rows g) }
{
    let mut column = [0u128; 20001];
    fill(tables, &mut column);
    sum_of(&column[..tables.places])
}

// How many occurrences start at each word of a text, in a column of zeros that has room for one number more.
pub(crate) fn fill_text(pattern: &Pattern, text: &[u16], column: &mut [u128])
    requires input { Input pattern.now (plain pattern.now text.now) }
    requires blank { Blank (length text.now) column.old }
    ensures { Column pattern.now (plain pattern.now text.now) column.new }
{
    let mut fits = [0u8; 320000];
    let mut lasts = [0u16; 20000];
    let tables = Tables::of(pattern, text, &mut fits, &mut lasts);
    fill(&tables, column);
}
