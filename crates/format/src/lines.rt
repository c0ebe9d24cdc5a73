// The closed lines of a file's bytes.
ghost use Rattle.std.specs.Prelude.{◌≡◌, ℕ, ◌≤◌, List, Bool, MatchOption, IfOk, length};
ghost use Rattle.format.specs.Bytes.{lines, ended};
ghost use Rattle.format.specs.Layouts.{scan};
ghost use Rattle.format.specs.Steps.ClosedLines.{ClosedLine, OpenLine, laid};
ghost use Rattle.std.specs.Fn.{FnReturnsAt};

use crate::reader::line_at;
use pattern::Refusal;

// The first line and the bytes after it, if the line is closed.
pub(crate) fn first_line(s: &[u8]) -> Option<(&[u8], &[u8])>
    ensures { MatchOption result (OpenLine s.now) (λ l. ClosedLine s.now l.0.now l.1.now) }
{
    let line = line_at(s, 0);
    if line.end == line.next {
        return None;
    }
    Some((&s[..line.end], &s[line.next..]))
}

// How many lines there are, where each passes the test; the first of them is line `first` of the file.
pub(crate) fn count_lines<F: Fn(&[u8]) -> bool>(
    s: &[u8],
    first: usize,
    test: F,
) -> Result<usize, Refusal>
    requires callable { F.IsAlwaysCallable test }
    requires low { first ≤ 4 }
    ensures value { (ok : List ℕ → Bool) → ((l : List ℕ) (b : Bool) → FnReturnsAt F.Fn test l b → b ≡ ok l) → result ≡ laid first (scan (lines s.now) ok (ended s.now 10) 0) }
    ensures bound { IfOk result (λ n. n ≤ length s.now) }
{
    let mut rest = s;
    let mut n = 0;
    // while: each turn goes on at the next line, and n only counts the lines
    while !rest.is_empty() {
        let Some((line, others)) = first_line(rest) else {
            return Err(Refusal::Values(n + first));
        };
        if !test(line) {
            return Err(Refusal::Values(n + first));
        }
        rest = others;
        n += 1;
    }
    Ok(n)
}
