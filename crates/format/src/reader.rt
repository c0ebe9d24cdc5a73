ghost use Rattle.std.specs.Prelude.{◌≡◌};
ghost use Rattle.format.specs.Lines.{line_at};

use crate::bytes::find;

// A file's bytes and how far they have been read. Public: the place stays beside the bytes, since `resume`, `next_line` and `past_line` promise
// what they do of these two fields.
#[derive(Clone, Copy)]
pub struct Reader<'a> {
    pub bytes: &'a [u8],
    pub at: usize,
}

// A line: where its bytes end, and where the next line begins. The two are the same place where the line is not closed. No option beside them,
// since the struct is public and C's `bedbloomer_line` answers both places.
#[derive(Clone, Copy)]
pub struct Line {
    pub end: usize,
    pub next: usize,
}

// Where the line after the one at a place begins; the end where that one is not closed.
fn after_line(s: &[u8], at: usize) -> usize
    ensures { result ≡ (line_at s.now at).next }
{
    let n = s.len();
    if n <= at {
        return at;
    }
    match find(s, at, b'\n') {
        Some(e) => e + 1,
        None => n,
    }
}

// The line from a place to where the next one begins: what stands there, without the line feed.
fn passed(s: &[u8], at: usize, next: usize) -> Line
    requires { next ≡ (line_at s.now at).next }
    ensures { result ≡ line_at s.now at }
{
    if next <= at {
        return Line { end: next, next };
    }
    if s[next - 1] == b'\n' {
        return Line {
            end: next - 1,
            next,
        };
    }
    Line { end: next, next }
}

// The line that begins at a place of the bytes.
fn cut_line(s: &[u8], at: usize) -> Line
    ensures { result ≡ line_at s.now at }
{
    passed(s, at, after_line(s, at))
}

// A reader of the bytes that has read so far.
pub fn resume<'a>(bytes: &'a [u8], at: usize) -> Reader<'a>
    ensures { (result.bytes ≡ bytes.entry) × (result.at ≡ at) }
{
    Reader { bytes, at }
}

// The reader's next line.
pub fn next_line<'a>(reader: Reader<'a>) -> Line
    ensures { result ≡ line_at reader.entry.bytes.now reader.entry.at }
{
    cut_line(reader.bytes, reader.at)
}

// The reader once it has read its next line.
pub fn past_line<'a>(reader: Reader<'a>) -> Reader<'a>
    ensures { (result.bytes ≡ reader.entry.bytes) × (result.at ≡ (line_at reader.entry.bytes.now reader.entry.at).next) }
{
    let at = reader.at;
    let next = after_line(reader.bytes, at);
    Reader {
        bytes: reader.bytes,
        at: next,
    }
}

// How far a reader of the bytes has read, from a place on, once it is past a line.
fn read_past(bytes: &[u8], at: usize) -> usize
    ensures { result ≡ (line_at bytes.now at).next }
{
    past_line(resume(bytes, at)).at
}

// The line that a reader of the bytes reads from a place on.
pub fn line_at(bytes: &[u8], at: usize) -> Line
    ensures { result ≡ line_at bytes.now at }
{
    passed(bytes, at, read_past(bytes, at))
}
