// Writing a pattern as a file, in one way.
#![tactic(auto)]

mod writing;

pub use writing::write_pattern;

// The most bytes of a pattern's file as it is written.
pub const PATTERN_FILE: usize = 916;
