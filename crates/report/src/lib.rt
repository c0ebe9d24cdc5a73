// What the program prints for its input, as bytes.
#![tactic(auto)]

mod files;
mod lines;

ghost use Rattle.std.specs.Prelude.{◌≡◌, min, length};
ghost use Rattle.counting.specs.Answers.{tallied};
ghost use Rattle.basics.specs.Writing.{overlaid, Writes};
ghost use Rattle.report.specs.Size.{report_bound};
ghost use Rattle.report.specs.Report.{after_tally, search_report, files_report, reported};
ghost use Rattle.report.specs.Steps.Fronts.{Fronted};

use crate::files::parted;
use crate::lines::{Lists, put_lists, put_refusal};
use counting::tally;
use format::read_input;
use matching::{leftmost, rightmost};
use pattern::{Pattern, Refusal};

// No report has more bytes than this: a line of names, the line of the count, another line of names, and a line for each of 16,000 entries.
pub const REPORT_BOUND: usize = 15 + 48 + 20 + 16000 * 21;

// Reports the tally, with the front list of so many rows and the back list, which has as many.
fn tally_report(pattern: Pattern, text: &[u16], rows: usize, front: &[u16], out: &mut [u8]) -> usize
    requires { Fronted pattern text.now rows front.now }
    ensures { Writes (after_tally (tallied pattern text.now) pattern text.now) out.old 0 out.new result }
{
    match tally(pattern, text) {
        Err(why) => put_refusal(out, why),
        Ok(total) => {
            let mut back = [0u16; 16000];
            // as many rows as the front list, so it is not refused
            let _ = rightmost(pattern, text, &mut back);
            let lists = Lists {
                m: pattern.count,
                front,
                back: &back[..front.len()],
            };
            put_lists(out, rows, total, lists)
        }
    }
}

// Reports what a pattern has in a text: the lists' room is tested before the tally.
fn search_report(pattern: Pattern, text: &[u16], out: &mut [u8]) -> usize
    ensures { Writes (search_report pattern text.now) out.old 0 out.new result }
{
    let mut front = [0u16; 16000];
    match leftmost(pattern, text, &mut front) {
        Err(why) => put_refusal(out, why),
        Ok(rows) => tally_report(pattern, text, rows, &front[..rows * pattern.count], out),
    }
}

// Reports what a pattern file and a text file hold.
fn files_report(pattern: &[u8], text: &[u8], out: &mut [u8]) -> usize
    ensures { Writes (files_report pattern.now text.now) out.old 0 out.new result }
{
    let mut words = [0u16; 20000];
    match read_input(pattern, text, &mut words) {
        Err(why) => put_refusal(out, why),
        Ok(input) => search_report(input.pattern, &words[..input.words], out),
    }
}

// Writes what the program prints for the input, as much of it as has room, and says how many bytes that is; `REPORT_BOUND` bytes are room
// for all of it.
pub fn report(input: &[u8], out: &mut [u8]) -> usize
    ensures value { (result ≡ min (length (reported input.now)) (length out.old)) × (out.new ≡ overlaid (reported input.now) out.old) }
    ensures report_bound_value { report_bound ≡ REPORT_BOUND }
{
    let n = input.len();
    if format::FILE < n {
        return put_refusal(out, Refusal::FileLength);
    }
    let end = parted(input);
    let start = (end + 1).min(n);
    files_report(&input[..end], &input[start..], out)
}
