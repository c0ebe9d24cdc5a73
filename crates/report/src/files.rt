ghost use Rattle.std.specs.Prelude.{◌≡◌};
ghost use Rattle.report.specs.Files.{parted};

// The index of the line feed that parts the two files, or the length where there is none. No option, since the input is cut at it in either case.
#[tactic(auto, using(crate::specs::Laws::Files::parting_here, crate::specs::Laws::Files::parting_on, crate::specs::Laws::Files::parting_end))]
pub(crate) fn parted(input: &[u8]) -> usize
    ensures { result ≡ parted input.now }
{
    let mut before = b'\n';
    for (i, byte) in input.iter().enumerate() {
        if before == b'\n' && *byte == b'\n' {
            return i;
        }
        before = *byte;
    }
    input.len()
}
