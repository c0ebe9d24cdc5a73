// Finding occurrences of patterns in texts: the searches, the front and back lists, the count. The meanings stand in specs/.
// A row is sixteen places, those past the slots 0: memory is fixed, and the searches promise such rows.
// A place is widened by `as usize`, not `usize::from`: a cast is no call, so proofs read conditions as the code compares them.
#![tactic(auto)]

mod bounds;
mod lists;
mod mirror;
mod places;
mod search;
mod searches;
mod side;

pub use lists::{leftmost, rightmost, support};
pub use searches::{first_after, last_before, row_verdict};
