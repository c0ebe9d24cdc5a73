// The tests of a slot and of the span limits.
ghost use Rattle.std.specs.Prelude.{◌≡◌, ℕ};
ghost use Rattle.pattern.specs.declared.slot.Slot.{Slot};
ghost use Rattle.pattern.specs.Tests.{Verdict, widest_gap, fewest_words, slot_verdict, order_verdict, span_verdict};

use crate::{Pattern, Refusal, Slot};

// A test of a slot with its number, which may be made of any slot with any number.
pub trait SlotTest {
    // What it answers.
    ghost told: { Self → ℕ → Slot → Verdict };

    // The test.
    fn test(&self, k: usize, slot: Slot) -> Result<(), Refusal>
        ensures { result ≡ told self.now k slot };
}

// The widest gap that may stand before slot number k.
fn widest(k: usize) -> u16
    ensures { result ≡ widest_gap k }
{
    if k == 1 { 0 } else { Pattern::HIGH }
}

// The fewest words of a slot: one, or none where it is excluding.
fn fewest(excluding: bool) -> usize
    ensures { result ≡ fewest_words excluding }
{
    if excluding { 0 } else { 1 }
}

// Tests 2, 3 and 4 of slot number k.
#[tactic(auto, unfolding(crate::specs::Tests::slot_verdict))]
pub(crate) fn slot_verdict(k: usize, slot: Slot) -> Result<(), Refusal>
    ensures { result ≡ slot_verdict k slot }
{
    let count = slot.count;
    if count < fewest(slot.excluding) {
        return Err(Refusal::WordCount(k));
    }
    if Pattern::WORDS < count {
        return Err(Refusal::WordCount(k));
    }
    if slot.lists(0) {
        return Err(Refusal::ZeroWord(k));
    }
    if slot.high < slot.low {
        return Err(Refusal::Gap(k));
    }
    if widest(k) < slot.high {
        return Err(Refusal::Gap(k));
    }
    Ok(())
}

// Tests 2, 3 and 4 of a slot.
#[derive(Clone, Copy)]
pub(crate) struct Limits;

impl SlotTest for Limits {
    ghost told = { λ _. slot_verdict };

    fn test(&self, k: usize, slot: Slot) -> Result<(), Refusal> {
        slot_verdict(k, slot)
    }
}

// Test 16 of a slot.
#[derive(Clone, Copy)]
pub(crate) struct Order;

impl SlotTest for Order {
    ghost told = { λ _. order_verdict };

    fn test(&self, k: usize, slot: Slot) -> Result<(), Refusal> {
        if slot.rises() {
            Ok(())
        } else {
            Err(Refusal::WordOrder(k))
        }
    }
}

// Test 5.
#[tactic(auto, unfolding(crate::specs::Tests::span_verdict))]
pub(crate) fn span_verdict(least: u16, most: u16) -> Result<(), Refusal>
    ensures { result ≡ span_verdict least most }
{
    if least == 0 {
        return Err(Refusal::Span);
    }
    if most < least {
        return Err(Refusal::Span);
    }
    if Pattern::MOST < most {
        return Err(Refusal::Span);
    }
    Ok(())
}
