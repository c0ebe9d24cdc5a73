// The text format (document 01: sheets): reading patterns and texts from bytes.
#![tactic(auto)]

mod bytes;
mod fields;
mod input;
mod lines;
mod names;
mod numbers;
mod patterns;
mod reader;
mod texts;
mod values;
mod words;

pub use input::{Input, read_input};
pub use patterns::read_pattern;
pub use reader::{Line, Reader, line_at, next_line, past_line, resume};
pub use texts::read_text;

// The most bytes of a file.
pub const FILE: usize = 60000;
