// Patterns with gap and length constraints, the limits they keep to, and why one is refused.
#![tactic(auto)]

ghost use Rattle.std.specs.Prelude.{◌≡◌, min};
ghost use Rattle.pattern.specs.Patterns.{empty_pattern, with_span};
ghost use Rattle.pattern.specs.Tests.{slots_verdict, pattern_verdict, input_verdict};
ghost use Rattle.pattern.specs.Adding.{extended};

mod checks;
mod refusal;
mod slot;
mod words;

pub use checks::SlotTest;
use checks::{Limits, Order, slot_verdict, span_verdict};
pub use refusal::Refusal;
pub use slot::Slot;

// A pattern with gap and length constraints (document 01: frame; 004, Definition 2). C has the same struct, so the number of slots stands
// beside them.
#[repr(C)]
#[derive(Clone, Copy)]
pub struct Pattern {
    pub slots: [Slot; 16],
    pub count: usize,
    pub least: u16,
    pub most: u16,
}

impl Pattern {
    // The most slots of a pattern.
    pub const SLOTS: usize = 16;

    // The most words of a slot.
    pub const WORDS: usize = 8;

    // The widest gap.
    pub const HIGH: u16 = 63;

    // The least span limit of a new pattern, and the least there is.
    pub const LEAST: u16 = 1;

    // The largest span limit of a new pattern, and the largest there is.
    pub const MOST: u16 = 20000;

    // The most words of a text.
    pub const TEXT: usize = 20000;

    // The pattern with no slots and the widest span limits; all its entries are 0.
    pub fn new() -> Self
        ensures value { result ≡ empty_pattern }
        ensures least { result.least ≡ Self.LEAST }
        ensures most { result.most ≡ Self.MOST }
    {
        let unused = Slot {
            words: [0u16; 8],
            count: 0,
            low: 0,
            high: 0,
            excluding: false,
        };
        Pattern {
            slots: [unused; 16],
            count: 0,
            least: Pattern::LEAST,
            most: Pattern::MOST,
        }
    }

    // The pattern with other span limits, which are not tested here.
    pub fn with_span(self, least: u16, most: u16) -> Self
        ensures { result ≡ with_span self least most }
    {
        Pattern {
            least,
            most,
            ..self
        }
    }

    // The pattern with one slot more, after the others; its words are put in rising order, each once.
    #[tactic(auto, unfolding(crate::specs::Adding::extended))]
    pub fn with_slot(
        self,
        low: u16,
        high: u16,
        excluding: bool,
        words: &[u16],
    ) -> Result<Self, Refusal>
        ensures { result ≡ extended self low high excluding words.now }
    {
        let count = self.count;
        if Pattern::SLOTS <= count {
            return Err(Refusal::SlotCount);
        }
        let slot = Slot::of(low, high, excluding, words);
        slot_verdict(count + 1, slot)?;
        let mut longer = self;
        longer.slots[count] = slot.canonical();
        longer.count = count + 1;
        Ok(longer)
    }

    // A test of each slot with its number, from the first slot on, up to the first that is refused.
    pub fn check_slots<T: SlotTest>(&self, test: &T) -> Result<(), Refusal>
        ensures { result ≡ slots_verdict (T.told test.now) self.now 0 (min self.now.count 16) }
    {
        let count = self.count.min(Pattern::SLOTS);
        // for over indices: the test is given each slot's number, so an iterator over the slots would need them too and be no plainer
        for j in 0..count {
            test.test(j + 1, self.slots[j])?;
        }
        Ok(())
    }

    // The first of the tests 1 to 5 and 16 that the pattern fails.
    #[tactic(auto, unfolding(crate::specs::Tests::pattern_verdict, crate::specs::Tests::limits_verdict))]
    pub fn check(&self) -> Result<(), Refusal>
        ensures { result ≡ pattern_verdict self.now }
    {
        if self.count == 0 {
            return Err(Refusal::SlotCount);
        }
        if Pattern::SLOTS < self.count {
            return Err(Refusal::SlotCount);
        }
        self.check_slots(&Limits)?;
        span_verdict(self.least, self.most)?;
        self.check_slots(&Order)
    }

    // The first of the tests 1 to 5, 16 and 6 that the pattern and a text of so many words fail.
    #[tactic(auto, unfolding(crate::specs::Tests::input_verdict))]
    pub fn check_with(&self, words: usize) -> Result<(), Refusal>
        ensures { result ≡ input_verdict self.now words }
    {
        self.check()?;
        if Pattern::TEXT < words {
            return Err(Refusal::TextLength);
        }
        Ok(())
    }
}
