ghost use Rattle.std.specs.Prelude.{◌≡◌, ◌+◌, ◌≤◌, ◌<◌, MatchOption, length, drop};
ghost use Rattle.format.specs.Bytes.{cut};

// The place of the next byte `sep` from `at` on, if there is one.
pub(crate) fn find(s: &[u8], at: usize, sep: u8) -> Option<usize>
    requires { at ≤ length s.now }
    ensures { MatchOption result (length s.now ≡ at + cut (drop at s.now) sep) (λ e. (e ≡ at + cut (drop at s.now) sep) × (e < length s.now)) }
{
    let k = s[at..].iter().position(|b| *b == sep)?;
    Some(at + k)
}
