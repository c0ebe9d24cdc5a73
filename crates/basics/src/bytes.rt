ghost use Rattle.std.specs.Prelude.{◌≡◌, [], ◌∷◌, ◌++◌};
ghost use Rattle.basics.specs.Digits.{digits_in};
ghost use Rattle.basics.specs.Writing.{put_at, next_at};

// Writes a byte where there is room for it, and says where the next one goes. So do all writers here. (List and index are two arguments, as
// README's writers promise it; a struct of both would change them.)
pub fn put_byte(out: &mut [u8], at: usize, byte: u8) -> usize
    ensures value { result ≡ next_at (byte ∷ []) at out.old }
    ensures out_after { out.new ≡ put_at (byte ∷ []) at out.old }
{
    if at < out.len() {
        out[at] = byte;
        return at + 1;
    }
    at
}

// Writes the bytes, one by one: to copy them at once, the room would have to be reckoned first, for an index past the end too, and that is
// no plainer.
pub fn put_bytes(out: &mut [u8], at: usize, bytes: &[u8]) -> usize
    ensures value { result ≡ next_at bytes.now at out.old }
    ensures out_after { out.new ≡ put_at bytes.now at out.old }
{
    let mut next = at;
    for byte in bytes {
        next = put_byte(out, next, *byte);
    }
    next
}

// Writes a number in base ten. The digits are made here: the clauses promise where the next byte goes and what is left out at the end,
// which no `Display` says.
pub fn put_number(out: &mut [u8], at: usize, n: u64) -> usize
    ensures value { result ≡ next_at (digits_in 19 n) at out.old }
    ensures out_after { out.new ≡ put_at (digits_in 19 n) at out.old }
{
    if n < 10 {
        return put_byte(out, at, (48 + n) as u8);
    }
    let next = put_number(out, at, n / 10);
    put_byte(out, next, (48 + n % 10) as u8)
}

// Writes a number and the byte after it.
pub fn put_value(out: &mut [u8], at: usize, n: u64, after: u8) -> usize
    ensures value { result ≡ next_at (digits_in 19 n ++ (after ∷ [])) at out.old }
    ensures out_after { out.new ≡ put_at (digits_in 19 n ++ (after ∷ [])) at out.old }
{
    let next = put_number(out, at, n);
    put_byte(out, next, after)
}
