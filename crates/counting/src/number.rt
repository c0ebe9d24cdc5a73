ghost use Rattle.std.specs.Prelude.{◌≡◌};
ghost use Rattle.counting.specs.Halves.{high, low};

// One more than the largest half of a number.
const HALF: u128 = 1 << 64;

// The high and the low half of a number.
pub fn halves(n: u128) -> (u64, u64)
    ensures high { result.0 ≡ high n }
    ensures low { result.1 ≡ low n }
{
    ((n / HALF) as u64, (n % HALF) as u64)
}
