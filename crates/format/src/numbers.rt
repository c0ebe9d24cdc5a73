ghost use Rattle.std.specs.Prelude.{◌≡◌};
ghost use Rattle.format.specs.Bytes.{is_number, number, value};

// The number that the bytes show in base ten, if they show one. Digit by digit, since `parse` also takes a sign and leading zeros, which a file
// may not have.
pub(crate) fn decimal(s: &[u8]) -> Option<u16>
    ensures { result ≡ number s.now }
{
    if s.is_empty() || (s[0] == b'0' && s.len() > 1) {
        return None;
    }
    // wider than the answer: with `checked_mul` and `checked_add` a text of five-digit words took half as long again
    let mut v: u32 = 0;
    for b in s {
        if !b.is_ascii_digit() {
            return None;
        }
        v = v * 10 + u32::from(*b - b'0');
        if 65535 < v {
            return None;
        }
    }
    Some(v as u16)
}

// Whether the bytes show a number.
pub(crate) fn is_number(s: &[u8]) -> bool
    ensures { result ≡ is_number s.now }
{
    decimal(s).is_some()
}

// The number that the bytes show, or 0 where they show none. No option, since the entries that a slot's words leave hold 0.
pub(crate) fn value(s: &[u8]) -> u16
    ensures { result ≡ value s.now }
{
    decimal(s).unwrap_or(0)
}
