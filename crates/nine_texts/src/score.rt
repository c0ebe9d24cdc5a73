// Checks, counted; what a failed one expected and got is written.
use pattern::Refusal;
use std::io;

// How many checks were done, and how many of them failed.
#[derive(Clone, Copy)]
pub struct Score {
    pub done: u64,
    pub failed: u64,
}

// What a call answers as one number, a refusal as 100,000 and its own: the checks are of numbers, and so printed.
pub fn number_of(answer: Result<u64, Refusal>) -> u64 {
    match answer {
        Ok(n) => n,
        Err(why) => 100000 + u64::from(why.number()),
    }
}

// Writes the entries of a list, each after a space. (The programs share no crate, so that each reads alone.)
fn show_list(rt: &impl Print, list: &[u16]) -> io::Result<()> {
    for entry in list {
        print!(rt; " {entry}")?;
    }
    Ok(())
}

impl Score {
    // No checks yet.
    pub fn new() -> Self {
        Score { done: 0, failed: 0 }
    }

    // With one check more.
    fn with(self, failed: u64) -> Self {
        Score {
            done: self.done.wrapping_add(1),
            failed: self.failed.wrapping_add(failed),
        }
    }

    // Checks a number.
    pub fn number(self, rt: &impl Print, expected: u64, got: u64) -> io::Result<Self> {
        if expected == got {
            return Ok(self.with(0));
        }
        print!(rt; " [expected {expected}, got {got}]")?;
        Ok(self.with(1))
    }

    // Checks a list.
    pub fn list(self, rt: &impl Print, expected: &[u16], got: &[u16]) -> io::Result<Self> {
        if expected == got {
            return Ok(self.with(0));
        }
        print!(rt; " [expected")?;
        show_list(rt, expected)?;
        print!(rt; ", got")?;
        show_list(rt, got)?;
        print!(rt; "]")?;
        Ok(self.with(1))
    }

    // Ends a line with the checks that failed since an earlier score.
    pub fn close(self, rt: &impl Print, before: Score) -> io::Result<()> {
        if self.failed == before.failed {
            return println!(rt; ": as expected");
        }
        println!(rt; ": failed {}", self.failed.wrapping_sub(before.failed))
    }
}
