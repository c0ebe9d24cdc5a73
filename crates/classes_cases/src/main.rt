// Texts recoded by word class: expressions, the refusals in their order, the limits, and a text that is recoded and then counted. What is
// printed stands in the file `stdout`.
#![tactic(auto)]

use pattern::{Pattern, Refusal};
use std::io;

// Writes the entries of a list, each after a space. (The programs share no crate, so that each reads alone.)
fn show_list(rt: &impl Print, list: &[u16]) -> io::Result<()> {
    for x in list {
        print!(rt; " {x}")?;
    }
    println!(rt; "")
}

// Writes an expression, what recoding by it answers, and the list then. (Its parameters are those of the call.)
fn show_recoded(
    rt: &impl Print,
    text: &[u16],
    classes: &[u8],
    expression: &[u8],
    code: u16,
    list: &mut [u16],
) -> io::Result<()> {
    rt.write_all(expression)?;
    print!(rt; ": ")?;
    match classes::recode(text, classes, expression, code, list) {
        Ok(n) => print!(rt; "words {n}")?,
        Err(why) => print!(rt; "{why}")?,
    }
    print!(rt; ", list")?;
    show_list(rt, list)
}

// The words 1 to 8 with the classes a, b, c, ab, ac, bc, abc and h, and a sentence end with all of them; one entry of the list is left.
fn show_expression(rt: &impl Print, expression: &[u8]) -> io::Result<()> {
    let text = [1u16, 2, 3, 4, 5, 6, 7, 8, 0];
    let classes = [1u8, 2, 4, 3, 5, 6, 7, 128, 255];
    let mut list = [99u16; 10];
    show_recoded(rt, &text, &classes, expression, 50, &mut list)
}

// The refusals in their order 6, 22, 3, 20, 21, 8, each where later ones apply, too; then none.
fn show_refusals(rt: &impl Print) -> io::Result<()> {
    let long = [1u16; 20001];
    let none = [0u8; 0];
    let text = [1u16, 2, 3];
    let classes = [1u8, 2, 4];
    let open = b"(((((((((a))))))))";
    let nine = b"(((((((((a)))))))))";
    let eight = b"((((((((a))))))))";
    let mut two = [99u16; 2];
    let mut three = [99u16; 3];
    show_recoded(rt, &long, &none, open, 0, &mut two)?;
    show_recoded(rt, &text, &classes[..2], open, 0, &mut two)?;
    show_recoded(rt, &text, &classes, open, 0, &mut two)?;
    show_recoded(rt, &text, &classes, open, 5, &mut two)?;
    show_recoded(rt, &text, &classes, nine, 5, &mut two)?;
    show_recoded(rt, &text, &classes, eight, 5, &mut two)?;
    show_recoded(rt, &text, &classes, eight, 5, &mut three)
}

// An expression of 200 bytes, and one of 201.
fn show_lengths(rt: &impl Print) -> io::Result<()> {
    let mut bytes = [b'!'; 201];
    bytes[199] = b'a';
    show_expression(rt, &bytes[..200])?;
    let mut longer = [b'!'; 201];
    longer[200] = b'a';
    show_expression(rt, &longer)
}

// "the" and, after up to two words, the code 900.
fn the_code() -> Result<Pattern, Refusal> {
    let the = Pattern::new().with_slot(0, 0, false, &[10])?;
    the.with_slot(0, 2, false, &[900])
}

// The count of that pattern in a text, and its front list.
fn front(text: &[u16], list: &mut [u16]) -> Result<usize, Refusal> {
    matching::leftmost(the_code()?, text, list)
}

// Writes them.
fn show_front(rt: &impl Print, text: &[u16]) -> io::Result<()> {
    let mut list = [99u16; 6];
    match front(text, &mut list) {
        Ok(count) => print!(rt; "count {count}")?,
        Err(why) => print!(rt; "{why}")?,
    }
    print!(rt; ", list")?;
    show_list(rt, &list)
}

// The worked text, "the cat sees the cats . Anna sees the old dog", recoded by "a noun or a name, but no plural", and counted.
fn show_worked(rt: &impl Print) -> io::Result<()> {
    let text = [10u16, 21, 30, 10, 22, 0, 23, 30, 10, 40, 24];
    let classes = [0u8, 1, 0, 0, 5, 3, 2, 0, 0, 8, 1];
    let mut recoded = [99u16; 11];
    show_front(rt, &text)?;
    show_recoded(rt, &text, &classes, b"(a|b)&!c", 900, &mut recoded)?;
    show_front(rt, &recoded)
}

fn main(rt: HostRuntime) -> io::Result<()> {
    show_worked(&rt)?;
    show_expression(&rt, b"a")?;
    show_expression(&rt, b"h")?;
    show_expression(&rt, b"a|b&c")?;
    show_expression(&rt, b"(a|b)&c")?;
    show_expression(&rt, b"!a&b")?;
    show_expression(&rt, b"!(a&b)")?;
    show_expression(&rt, b"!!a")?;
    show_expression(&rt, b"a&b|!c&a|h")?;
    show_expression(&rt, b"")?;
    show_expression(&rt, b"a&")?;
    show_expression(&rt, b"ab")?;
    show_expression(&rt, b"()")?;
    show_expression(&rt, b"a|i")?;
    show_expression(&rt, b"a)")?;
    show_expression(&rt, b"(a")?;
    show_refusals(&rt)?;
    show_lengths(&rt)
}
