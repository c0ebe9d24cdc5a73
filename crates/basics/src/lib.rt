// What several crates share: numbers, rows written over a list, bytes written over a list.
#![tactic(auto)]

mod bytes;
mod numbers;
mod rows;

pub use bytes::{put_byte, put_bytes, put_number, put_value};
pub use numbers::{smaller, widen, widen_byte};
pub use rows::put_row;
