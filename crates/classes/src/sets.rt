ghost use Rattle.std.specs.Prelude.{◌≡◌, ◌<◌};
ghost use Rattle.classes.specs.Steps.Sets.{numbers, contains, LetterSet, EachNumber, complement, intersection, union};

use basics::widen_byte;
use std::ops::{BitAnd, BitOr, Not};

// A set of class bytes, a bit for each of them, in four numbers of 64 bits: the byte c stands at bit c % 64 of number c / 64.
#[derive(Clone, Copy)]
pub(crate) struct ClassSet([u64; 4]);

// All bits.
const ALL: u64 = 0xffffffffffffffff;

// For each letter the class bytes that have its bit.
const LETTERS: [[u64; 4]; 8] = [
    [0xaaaaaaaaaaaaaaaa; 4],
    [0xcccccccccccccccc; 4],
    [0xf0f0f0f0f0f0f0f0; 4],
    [0xff00ff00ff00ff00; 4],
    [0xffff0000ffff0000; 4],
    [0xffffffff00000000; 4],
    [0, ALL, 0, ALL],
    [0, 0, ALL, ALL],
];

// The class bytes that have this bit.
pub(crate) fn letter_set(bit: u8) -> ClassSet
    requires { bit < 8 }
    ensures { LetterSet bit result }
{
    ClassSet(LETTERS[widen_byte(bit)])
}

impl ClassSet {
    // Whether the class byte is in the set.
    #[tactic(auto, unfolding(crate::specs::Steps::Sets::contains))]
    pub(crate) fn contains(self, class: u8) -> bool
        ensures { result ≡ contains (numbers self) class }
    {
        let c = widen_byte(class);
        (self.0[c / 64] >> (c % 64)) % 2 == 1
    }

    // An operation on each of the four numbers.
    fn each_number<F: Fn(u64, u64) -> u64>(self, other: Self, op: F) -> Self
        requires { F.IsAlwaysCallable op }
        ensures { EachNumber (F.post op) self other result }
    {
        let v = self.0;
        let w = other.0;
        ClassSet([
            op(v[0], w[0]),
            op(v[1], w[1]),
            op(v[2], w[2]),
            op(v[3], w[3]),
        ])
    }
}

// The class bytes that are not in the set.
impl Not for ClassSet {
    type Output = Self;

    ghost not_gives = { λ v r. r ≡ complement v };

    fn not(self) -> Self {
        self.each_number(ClassSet([ALL; 4]), |a, b| a ^ b)
    }
}

// The class bytes that are in both.
impl BitAnd for ClassSet {
    type Output = Self;

    ghost bitand_gives = { λ v w r. r ≡ intersection v w };

    fn bitand(self, other: Self) -> Self {
        self.each_number(other, |a, b| a & b)
    }
}

// The class bytes that are in either.
impl BitOr for ClassSet {
    type Output = Self;

    ghost bitor_gives = { λ v w r. r ≡ union v w };

    fn bitor(self, other: Self) -> Self {
        self.each_number(other, |a, b| a | b)
    }
}
