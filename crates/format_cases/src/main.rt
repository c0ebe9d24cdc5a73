// Reads files with the compiled library and prints, for each, what it answers: how many slots or words, or `refused` with number and place.
// Then it writes patterns that were read, and prints what was written.
#![tactic(auto)]

use pattern::{Pattern, Refusal};
use std::io;

// Prints a line with a number, or why there is none.
fn print_answer(rt: &impl Print, answer: Result<usize, Refusal>) -> io::Result<()> {
    match answer {
        Ok(n) => println!(rt; "{n}"),
        Err(why) => println!(rt; "{why}"),
    }
}

// A pattern file: how many slots there are.
fn pattern_case(rt: &impl Print, bytes: &[u8]) -> io::Result<()> {
    print_answer(rt, format::read_pattern(bytes).map(|pattern| pattern.count))
}

// A text file, with room for three words: how many there are.
fn text_case(rt: &impl Print, bytes: &[u8]) -> io::Result<()> {
    let mut words = [9u16; 3];
    print_answer(rt, format::read_text(bytes, &mut words))
}

// Both files, with room for three words: how many words there are.
fn input_case(rt: &impl Print, pattern: &[u8], text: &[u8]) -> io::Result<()> {
    let mut words = [9u16; 3];
    let read = format::read_input(pattern, text, &mut words);
    print_answer(rt, read.map(|input| input.words))
}

// A text of 20,001 words.
fn sevens() -> [u8; 65536] {
    let mut out = [0u8; 65536];
    out[..5].copy_from_slice(b"word\n");
    for line in out[5..40007].chunks_exact_mut(2) {
        line.copy_from_slice(b"7\n");
    }
    out
}

// The first n of the bytes. (The programs share no crate, so that each reads alone.)
fn first(bytes: &[u8], n: usize) -> &[u8] {
    bytes.get(..n).unwrap_or(bytes)
}

// Files at the limits: of 60,000 bytes and one more, all of them 0; of 20,000 words and one more.
fn long_cases(rt: &impl Print) -> io::Result<()> {
    let zeros = [0u8; 65536];
    pattern_case(rt, first(&zeros, 60000))?;
    pattern_case(rt, first(&zeros, 60001))?;
    text_case(rt, first(&zeros, 60001))?;
    input_case(rt, b"", first(&zeros, 60001))?;
    let text = sevens();
    text_case(rt, first(&text, 40005))?;
    text_case(rt, first(&text, 40007))?;
    text_case(rt, first(&text, 40008))
}

// A pattern file, read and written again: what is written; a new pattern where the file is refused.
fn write_in(rt: &impl Print, bytes: &[u8], out: &mut [u8]) -> io::Result<()> {
    let pattern = format::read_pattern(bytes).unwrap_or(Pattern::new());
    match printing::write_pattern(pattern, out) {
        Ok(n) => rt.write_all(first(out, n)),
        Err(why) => println!(rt; "{why}"),
    }
}

// The same with so much room.
fn write_case(rt: &impl Print, bytes: &[u8], room: usize) -> io::Result<()> {
    let mut out = [0u8; 916];
    let end = room.min(out.len());
    write_in(rt, bytes, &mut out[..end])
}

// Words in another order and with repeats, names in another order, and lists that are just long enough and one byte too short.
fn write_cases(rt: &impl Print) -> io::Result<()> {
    write_case(
        rt,
        b"most least\n9 3\nwords high low\n8,65535,7 0 0\n!15,12,15 63 10\n! 1 0\n",
        printing::PATTERN_FILE,
    )?;
    write_case(rt, b"least most\n1 20000\nlow high words\n0 0 7\n", 40)?;
    write_case(rt, b"least most\n1 20000\nlow high words\n0 0 7\n", 39)?;
    write_case(rt, b"", printing::PATTERN_FILE)?;
    pattern_case(
        rt,
        b"least most\n1 20000\nlow high words\n0 0 1,1,1,1,1,1,1,1\n",
    )?;
    pattern_case(
        rt,
        b"least most\n1 20000\nlow high words\n0 0 1,1,1,1,1,1,1,1,1\n",
    )
}

// Pattern files, right and refused.
const PATTERNS: [&[u8]; 14] = [
    b"least most\n1 20000\nlow high words\n0 0 7\n0 1 1\n0 1 1\n",
    b"most least\n9 3\nwords low high\n7,8,65535 0 0\n",
    b"least most\n1 20000\nwords low\n0 0 7\n",
    b"least most\n1 20000\nlow high words\n0 01 7\n",
    b"least most\n1 20000\nlow high words\n0 0 \n",
    b"least most\n1 20000\nlow high words\n0 0 7",
    b"least most\r\n1 20000\nlow high words\n0 0 7\n",
    b"least most\n",
    b"",
    b"least most\n1 20000\nlow high words\n",
    b"least most\n1 20000\nlow high words\n0 0 1,2,3,4,5,6,7,8,9\n3 2 7\n",
    b"least most\n1 20000\nlow high words\n0 0 7\n0 0 0\n",
    b"least most\n1 20000\nlow high words\n0 0 7\n3 2 7\n",
    b"least most\n0 5\nlow high words\n0 0 7\n",
];

// Text files, right and refused.
const TEXTS: [&[u8]; 9] = [
    b"word\n7\n0\n65535\n",
    b"word\n",
    b"",
    b"word",
    b"words\n7\n",
    b"word\n7\n65536\n",
    b"word\n7\n\n",
    b"word\n7\n7",
    b"word\n1\n2\n3\n4\n",
];

// Pattern files with excluding slots, right and refused.
const MARKED: [&[u8]; 10] = [
    b"least most\n1 20000\nlow high words\n0 0 7\n0 0 !12,15\n0 0 !\n",
    b"least most\n1 20000\nwords high low\n! 0 0\n",
    b"least most\n1 20000\nlow high words\n0 0 !!\n",
    b"least most\n1 20000\nlow high words\n0 0 !,1\n",
    b"least most\n1 20000\nlow high words\n0 0 7\n0 0 !1,\n",
    b"least most\n1 20000\nlow high words\n0 0 1,!2\n",
    b"least most\n1 20000\nlow high words\n!0 0 7\n",
    b"least most\n1 20000\nlow high words\n0 0 !1,2,3,4,5,6,7,8\n",
    b"least most\n1 20000\nlow high words\n0 0 !1,2,3,4,5,6,7,8,9\n",
    b"least most\n1 20000\nlow high words\n0 0 7\n0 0 !7,0\n",
];

// The files, one after the other.
fn main(rt: HostRuntime) -> io::Result<()> {
    for bytes in PATTERNS {
        pattern_case(&rt, bytes)?;
    }
    for bytes in TEXTS {
        text_case(&rt, bytes)?;
    }
    let phrase = b"least most\n1 5\nlow high words\n0 0 7\n";
    input_case(&rt, b"least most\n0 5\nlow high words\n0 0 7\n", b"word")?;
    input_case(&rt, phrase, b"word")?;
    input_case(&rt, phrase, b"word\n7\n7\n")?;
    for bytes in MARKED {
        pattern_case(&rt, bytes)?;
    }
    write_cases(&rt)?;
    long_cases(&rt)
}
