ghost use Rattle.std.specs.Prelude.{◌+◌, ◌≤◌, length};
ghost use Rattle.matching.specs.Occurrence.{plain, takes_at};
ghost use Rattle.counting.specs.Steps.Inputs.{Input};
ghost use Rattle.counting.specs.Steps.Fits.{SlotFitted, Fitted};

use pattern::{Pattern, Slot};

// The table is flat, as that of the next indexes has to be (reach.rt), so that both are entered alike. Its bytes are 1 or 0: every reader
// makes one comparison of an entry, as it would of a bool, so that a table of bools would be no plainer.

// Writes which words a slot takes, from the entry `at` on: 1 or 0 for each. The index is needed: both sides are entered by it.
fn tabulate_slot(slot: &Slot, text: &[u16], at: usize, fits: &mut [u8])
    requires { at + length text.now ≤ length fits.old }
    ensures { SlotFitted (takes_at slot.now text.now) (length text.now) at fits.old fits.new }
{
    // A copy, which no write to the table can change. Two stores of constants: with one store of a number made of the answer the loop took 2
    // to 5 times as long.
    let slot = *slot;
    for (i, word) in text.iter().enumerate() {
        if slot.takes(*word) {
            fits[at + i] = 1;
        } else {
            fits[at + i] = 0;
        }
    }
}

// The table of which slot fits which place, 20000 entries a slot.
pub(crate) fn tabulate(pattern: &Pattern, text: &[u16], fits: &mut [u8])
    requires input { Input pattern.now (plain pattern.now text.now) }
    requires long { 320000 ≤ length fits.old }
    ensures { Fitted pattern.now (plain pattern.now text.now) fits.new }
{
    for j in 0..pattern.count {
        tabulate_slot(&pattern.slots[j], text, j * 20000, fits);
    }
}
