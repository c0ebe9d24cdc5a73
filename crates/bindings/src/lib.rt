// The library's calls for C and Rust: `extern "C"` functions on slices and plain structs (include/bedbloomer.h).
#![tactic(auto)]

mod answers;
mod files;
mod lists;
mod making;
mod recoding;
mod rows;
mod serving;

pub use answers::{Answer, Excerpted, Found, LineEnds, Made, ReadBoth, ServedTo, Total};
pub use files::{
    bedbloomer_count, bedbloomer_line, bedbloomer_read_input, bedbloomer_read_pattern,
    bedbloomer_read_text, bedbloomer_report, bedbloomer_write_pattern,
};
pub use lists::{
    bedbloomer_all, bedbloomer_leftmost, bedbloomer_rightmost, bedbloomer_starts,
    bedbloomer_support, bedbloomer_tally,
};
pub use making::{
    bedbloomer_check, bedbloomer_check_pattern, bedbloomer_merge, bedbloomer_pattern_of,
    bedbloomer_with_slot,
};
pub use recoding::bedbloomer_recode;
pub use rows::{
    bedbloomer_excerpt, bedbloomer_first_after, bedbloomer_is_occurrence, bedbloomer_last_before,
};
pub use serving::{bedbloomer_next, bedbloomer_rewind};
