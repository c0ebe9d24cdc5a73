// Writing numbers and lists. (The programs share no crate, so that each reads alone.)
use pattern::Refusal;
use std::io;

// Writes the entries of a list, each after a space.
pub fn show_list(rt: &impl Print, list: &[u16]) -> io::Result<()> {
    for entry in list {
        print!(rt; " {entry}")?;
    }
    Ok(())
}

// Writes a number after its name, or a refusal.
pub fn show_number(rt: &impl Print, name: &str, answer: Result<usize, Refusal>) -> io::Result<()> {
    match answer {
        Ok(n) => print!(rt; " {name} {n}"),
        Err(why) => print!(rt; " {why}"),
    }
}
