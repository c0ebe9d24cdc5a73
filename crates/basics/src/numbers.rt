ghost use Rattle.std.specs.Prelude.{◌≡◌, ◌<◌, min};

// std's `min` and `usize::from` by other names: public and named in README, so they and their clauses stay.

// The smaller of two numbers.
pub fn smaller(a: usize, b: usize) -> usize
    ensures { result ≡ min a b }
{
    a.min(b)
}

// A byte as a number to count with.
pub fn widen_byte(b: u8) -> usize
    ensures { (result ≡ b) × (result < 256) }
{
    usize::from(b)
}

// A word, a place or a gap as a number to count with.
pub fn widen(x: u16) -> usize
    ensures { (result ≡ x) × (result < 65536) }
{
    usize::from(x)
}
