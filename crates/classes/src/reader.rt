ghost use Rattle.std.specs.Prelude.{◌≡◌};
ghost use Rattle.classes.specs.Steps.Parts.{denied_part, closed_part, operand, joined, AlternativeRead, ConjunctionRead, FactorRead};

use crate::sets::{ClassSet, letter_set};

// What a part of an expression is read as: where it ends, the class bytes that meet it, and whether its brackets have room.
#[derive(Clone, Copy)]
pub(crate) struct Part {
    pub(crate) end: usize,
    pub(crate) set: ClassSet,
    pub(crate) fits: bool,
}

impl Part {
    // What `!` makes of a factor.
    fn denied(self) -> Self
        ensures { result ≡ denied_part self }
    {
        Part {
            set: !self.set,
            ..self
        }
    }

    // What `)` makes of an alternative after its `(`.
    fn closed(self, s: &[u8], room: usize) -> Option<Self>
        ensures { result ≡ closed_part s.now self room }
    {
        let i = self.end;
        if i < s.len() && s[i] == b')' {
            return Some(Part {
                end: i + 1,
                set: self.set,
                fits: 0 < room && self.fits,
            });
        }
        None
    }

    // Where the right side of the operator after the part starts, if it stands there.
    fn operand(self, s: &[u8], operator: u8) -> Option<usize>
        ensures { result ≡ operand s.now (Some self) operator }
    {
        let i = self.end;
        if i < s.len() && s[i] == operator {
            return Some(i + 1);
        }
        None
    }

    // The two sides of an operator, which this set meets.
    fn joined(self, right: Self, set: ClassSet) -> Self
        ensures { result ≡ joined self right set }
    {
        Part {
            end: right.end,
            set,
            fits: self.fits && right.fits,
        }
    }
}

// An alternative: conjunctions with `|` between them. (It and a conjunction differ in the operator, what reads a side and what joins two; one
// function of both would be handed a closure for each, and be no plainer.)
#[cycle(alternative_conjunction_factor)]
#[tactic(auto, using(crate::proofs::ReaderSteps::readings))]
pub(crate) fn alternative(s: &[u8], at: usize, room: usize) -> Option<Part>
    ensures { AlternativeRead s.now at room result × (operand s.now result 124 ≡ None) }
{
    let mut left = conjunction(s, at, room)?;
    // while: each step goes on behind the operand that it read, so no index is counted
    while let Some(next) = left.operand(s, b'|') {
        let right = conjunction(s, next, room)?;
        left = left.joined(right, left.set | right.set);
    }
    Some(left)
}

// A conjunction: factors with `&` between them.
#[cycle(alternative_conjunction_factor)]
#[tactic(auto, using(crate::proofs::ReaderSteps::readings))]
fn conjunction(s: &[u8], at: usize, room: usize) -> Option<Part>
    ensures { ConjunctionRead s.now at room result × (operand s.now result 38 ≡ None) }
{
    let mut left = factor(s, at, room)?;
    // while: each step goes on behind the operand that it read, so no index is counted
    while let Some(next) = left.operand(s, b'&') {
        let right = factor(s, next, room)?;
        left = left.joined(right, left.set & right.set);
    }
    Some(left)
}

// A factor: a letter, `!` and a factor, or an alternative in brackets, for which there is room or not.
#[cycle(alternative_conjunction_factor)]
#[tactic(auto, using(crate::proofs::ReaderSteps::readings))]
fn factor(s: &[u8], at: usize, room: usize) -> Option<Part>
    ensures { FactorRead s.now at room result }
{
    let b = *s.get(at)?;
    match b {
        b'!' => factor(s, at + 1, room).map(Part::denied),
        b'(' => alternative(s, at + 1, room.saturating_sub(1))?.closed(s, room),
        b'a'..=b'h' => Some(Part {
            end: at + 1,
            set: letter_set(b - b'a'),
            fits: true,
        }),
        _ => None,
    }
}
