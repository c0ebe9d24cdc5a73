// Reads a pattern file, an empty line and a text file from standard input, and prints their report.
#![tactic(auto)]

ghost use Rattle.std.specs.Prelude.{◌≡◌, ◌≤◌, ◌<◌, length, take, IfOk, IfSome, IsErrOf, OnOk};
ghost use Rattle.std.specs.Io.KnownBytes.{Appends, Consumes, IsAtEnd, Keeps};
ghost use Rattle.report.specs.Size.{report_bound};
ghost use Rattle.report.specs.Report.{reported};

use std::io::{Read, Write};
use std::process::ExitCode;
use std::{fmt, io};

// What a run could not do.
#[derive(Clone, Copy)]
enum Failure {
    Unread,
    Unwritten,
}

impl fmt::Display for Failure {
    fn fmt<W: fmt::Write>(&self, f: &mut fmt::Formatter<W>) -> fmt::Result {
        match self {
            Failure::Unread => write!(f, "the input could not be read"),
            Failure::Unwritten => write!(f, "the report could not be written"),
        }
    }
}

// Reads to the start of the list until the input ends or the list is full: how many bytes.
fn read_all<R: Read>(file: &mut R, list: &mut [u8]) -> io::Result<usize>
    ensures within { IfOk result (λ n. n ≤ length list.new) }
    ensures consumes { IfOk result (λ n. Consumes (R.remaining file.old) (R.remaining file.new) (take n list.new)) }
    ensures ends { IfOk result (λ n. n < length list.new → IsAtEnd (R.remaining file.new)) }
{
    let mut done = 0;
    // while: a read says how far it came
    while done < list.len() {
        let more = file.read(&mut list[done..])?;
        if more == 0 {
            return Ok(done);
        }
        done += more;
    }
    Ok(done)
}

// Writes the whole report to the start of a list that has room for any.
fn answer(input: &[u8], out: &mut [u8]) -> usize
    requires { report_bound ≤ length out.old }
    ensures within { result ≤ length out.new }
    ensures prefix_len { result ≡ length (take result out.new) }
    ensures out_after { take result out.new ≡ reported input.now }
{
    report::report(input, out)
}

// Prints the report of the input.
fn print<W: Write>(output: &mut W, input: &[u8]) -> io::Result<()>
    ensures { OnOk result (Appends (W.contents output.old) (W.contents output.new) (reported input.now)) }
{
    let mut out = [0u8; report::REPORT_BOUND];
    let n = answer(input, &mut out);
    output.write_all(&out[..n])
}

// Reads the whole input, or so much of one that is too long that it is refused, and prints its report.
fn run<R: Read, W: Write>(input: &mut R, output: &mut W) -> Result<(), Failure>
    ensures reports { OnOk result (IfSome (R.remaining input.old)
        (λ bytes. Appends (W.contents output.old) (W.contents output.new) (reported bytes))) }
    ensures silent { IsErrOf result Failure.Unread → Keeps (W.contents output.old) (W.contents output.new) }
{
    let mut list = [0u8; 65536];
    let Ok(n) = read_all(input, &mut list) else {
        return Err(Failure::Unread);
    };
    match print(output, &list[..n]) {
        Ok(()) => Ok(()),
        Err(_) => Err(Failure::Unwritten),
    }
}

// Reads standard input and prints to standard output; what fails is told on standard error, and the status is then 1.
fn main(rt: HostRuntime) -> ExitCode {
    match run(&mut rt.reader(), &mut io::writer(&rt)) {
        Ok(()) => ExitCode::SUCCESS,
        Err(why) => {
            let _ = eprintln!(rt; "bedbloomer: {why}");
            ExitCode::FAILURE
        }
    }
}
