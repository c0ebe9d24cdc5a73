// Counting and listing all occurrences of a pattern in a text.
#![tactic(auto)]

mod column;
mod fits;
mod gaps;
mod listing;
mod number;
mod reach;
mod sentences;
mod starting;
mod tables;
mod total;
mod walk;
mod window;

pub use listing::all;
pub use number::halves;
pub use starting::starts;
pub use total::tally;
