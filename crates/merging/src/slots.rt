// Two slots into one, and the slots of two patterns one by one.
ghost use Rattle.std.specs.Prelude.{◌≡◌};
ghost use Rattle.pattern.specs.Patterns.{first_slots};
ghost use Rattle.merging.specs.Slots.{merged_slot};
ghost use Rattle.merging.specs.Merging.{merged_slots};
ghost use Rattle.merging.specs.Steps.Inputs.{Ordered, Mergeable};

use crate::words::merged_words;
use pattern::{Pattern, Slot};

// Two slots into one: the words that both take, and the gap that both allow. (`Ordered` stays in the contracts: Slot is C's struct, and a
// type around it for three functions would be no plainer.)
fn merged_slot(first: &Slot, second: &Slot) -> Slot
    requires { Ordered first.now × Ordered second.now }
    ensures { result ≡ merged_slot first.now second.now }
{
    let words = merged_words(first, second);
    Slot::of(
        first.low.max(second.low),
        first.high.min(second.high),
        first.excluding && second.excluding,
        words.as_slice(),
    )
}

// The merged slots of two patterns, and unused ones after them.
#[tactic(auto, using(pattern::specs::Laws::Filling::filled_first, pattern::specs::Laws::Filling::filled_none, crate::specs::Laws::Slots::slots_end))]
pub(crate) fn merged_slots(first: &Pattern, second: &Pattern) -> [Slot; 16]
    requires { Mergeable first.now second.now }
    ensures { result ≡ first_slots (merged_slots first.now second.now 0 first.now.count) }
{
    let mut slots = Pattern::new().slots;
    // for over indices: after `iter_mut` in a zip a proof knows no element of the slots
    for j in 0..first.count {
        slots[j] = merged_slot(&first.slots[j], &second.slots[j]);
    }
    slots
}
