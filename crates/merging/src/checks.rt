// The tests of a merged slot.
ghost use Rattle.std.specs.Prelude.{◌≡◌};
ghost use Rattle.merging.specs.Merging.{remains, shared_verdict, room_verdict};

use pattern::{Pattern, Refusal, Slot, SlotTest};

// Whether some word is left to the slot, and some number to its gap.
#[tactic(auto, unfolding(crate::specs::Merging::remains))]
fn remains(slot: Slot) -> bool
    ensures { result ≡ remains slot }
{
    (slot.excluding || 0 < slot.count) && slot.low <= slot.high
}

// Test 18 of a slot; its number doesn't matter.
#[derive(Clone, Copy)]
pub(crate) struct Shared;

impl SlotTest for Shared {
    ghost told = { λ _. shared_verdict };

    fn test(&self, _k: usize, slot: Slot) -> Result<(), Refusal> {
        if remains(slot) {
            Ok(())
        } else {
            Err(Refusal::NothingShared)
        }
    }
}

// Test 19 of a slot; its number doesn't matter.
#[derive(Clone, Copy)]
pub(crate) struct Room;

impl SlotTest for Room {
    ghost told = { λ _. room_verdict };

    fn test(&self, _k: usize, slot: Slot) -> Result<(), Refusal> {
        if Pattern::WORDS < slot.count {
            return Err(Refusal::TooManyWords);
        }
        Ok(())
    }
}
