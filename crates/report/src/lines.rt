// The lines that are printed. The list and the place go from writer to writer, as the writers of `basics` take and promise them (`Writes`).
ghost use Rattle.std.specs.Prelude.{◌≡◌, [], ◌∷◌, ◌≤◌, length};
ghost use Rattle.format.specs.Shown.{closed};
ghost use Rattle.report.specs.Lines.{values, entry_lines, refusal_report, table_report};
ghost use Rattle.basics.specs.Writing.{Writes};
ghost use Rattle.counting.specs.Halves.{high, low};

use basics::{put_bytes, put_value};
use counting::halves;
use pattern::Refusal;

// The front list and the back list, whose rows have m places.
#[derive(Clone, Copy)]
pub(crate) struct Lists<'a> {
    pub m: usize,
    pub front: &'a [u16],
    pub back: &'a [u16],
}

// Writes a line of two values.
fn put_pair(out: &mut [u8], at: usize, a: u64, b: u64) -> usize
    ensures { Writes (closed (values (a ∷ b ∷ []) ∷ [])) out.old at out.new result }
{
    let next = put_value(out, at, a, b' ');
    put_value(out, next, b, b'\n')
}

// Writes a line of the table. Its four numbers one by one: they stand together nowhere else, and a struct of them would be no plainer.
fn put_entry(out: &mut [u8], at: usize, row: usize, slot: usize, front: u64, back: u64) -> usize
    ensures { Writes (closed (values (row ∷ slot ∷ front ∷ back ∷ []) ∷ [])) out.old at out.new result }
{
    let second = put_value(out, at, row as u64, b' ');
    let third = put_value(out, second, slot as u64, b' ');
    put_pair(out, third, front, back)
}

// Writes the line of the count and of the two halves of the tally.
fn put_counts(out: &mut [u8], at: usize, count: usize, total: u128) -> usize
    ensures { Writes (closed (values (count ∷ high total ∷ low total ∷ []) ∷ [])) out.old at out.new result }
{
    let next = put_value(out, at, count as u64, b' ');
    let (high, low) = halves(total);
    put_pair(out, next, high, low)
}

// Writes a line for each entry of the two lists.
fn put_table(out: &mut [u8], at: usize, lists: Lists) -> usize
    requires { (1 ≤ lists.m) × (length lists.front.now ≡ length lists.back.now) }
    ensures { Writes (closed (entry_lines lists.entry.m lists.entry.front.now lists.entry.back.now (length lists.entry.front.now))) out.old at out.new result }
{
    let Lists { m, front, back } = lists;
    let mut next = at;
    for (e, (front, back)) in front.iter().zip(back).enumerate() {
        next = put_entry(
            out,
            next,
            e / m + 1,
            e % m + 1,
            u64::from(*front),
            u64::from(*back),
        );
    }
    next
}

// Writes the count, the halves of the tally and the table.
pub(crate) fn put_lists(out: &mut [u8], count: usize, total: u128, lists: Lists) -> usize
    requires { (1 ≤ lists.m) × (length lists.front.now ≡ length lists.back.now) }
    ensures { Writes (table_report count (high total) (low total) lists.entry.m lists.entry.front.now lists.entry.back.now (length lists.entry.front.now)) out.old 0 out.new result }
{
    let first = put_bytes(out, 0, b"count high low\n");
    let second = put_counts(out, first, count, total);
    let third = put_bytes(out, second, b"row slot front back\n");
    put_table(out, third, lists)
}

// Writes the number and the place of a refusal.
pub(crate) fn put_refusal(out: &mut [u8], why: Refusal) -> usize
    ensures { Writes (refusal_report why) out.old 0 out.new result }
{
    let next = put_bytes(out, 0, b"refused place\n");
    put_pair(out, next, u64::from(why.number()), why.place() as u64)
}
