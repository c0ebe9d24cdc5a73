// Two patterns into one (document 02, Job 5): what both take and allow.
#![tactic(auto)]

mod checks;
mod slots;
mod words;

ghost use Rattle.std.specs.Prelude.{◌≡◌, ◌≤◌};
ghost use Rattle.merging.specs.Merging.{merged_pattern, result_verdict, answered, merged};
ghost use Rattle.merging.specs.Steps.Inputs.{Mergeable};

use checks::{Room, Shared};
use pattern::{Pattern, Refusal};
use slots::merged_slots;

// The merged pattern or, where 18 or 19 applies, the refusal. (The count stands in the contract: Pattern is C's struct, whose count may be
// any.)
#[tactic(auto, unfolding(crate::specs::Merging::result_verdict))]
fn judge(pattern: Pattern) -> Result<Pattern, Refusal>
    requires { pattern.count ≤ 16 }
    ensures { result ≡ answered (result_verdict pattern) pattern }
{
    pattern.check_slots(&Shared)?;
    if pattern.most < pattern.least {
        return Err(Refusal::NothingShared);
    }
    pattern.check_slots(&Room)?;
    Ok(pattern)
}

// The two patterns merged slot by slot, with the span limits that both allow.
fn merged_pattern(first: &Pattern, second: &Pattern) -> Pattern
    requires { Mergeable first.now second.now }
    ensures { result ≡ merged_pattern first.now second.now }
{
    let slots = merged_slots(first, second);
    Pattern {
        slots,
        count: first.count,
        least: first.least.max(second.least),
        most: first.most.min(second.most),
    }
}

// Two patterns into one: a row is an occurrence of it exactly when it is one of both.
#[tactic(auto, using(crate::proofs::Inputs::few_slots, crate::proofs::Inputs::mergeable), unfolding(crate::specs::Merging::merged, crate::specs::Merging::merge_verdict))]
pub fn merge(first: Pattern, second: Pattern) -> Result<Pattern, Refusal>
    ensures { result ≡ merged first second }
{
    first.check()?;
    second.check()?;
    if first.count != second.count {
        return Err(Refusal::SlotsDiffer);
    }
    judge(merged_pattern(&first, &second))
}
