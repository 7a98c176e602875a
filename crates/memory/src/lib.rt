// Bytes in lent memory. Each function takes a whole slice and an index into it, and its contract is an equation for the
// whole slice at exit, by the definitions of specs/.
#![tactic(auto)]

pub mod clearing;
pub mod moving;
pub mod splicing;
pub mod writing;

pub use clearing::{zero, zero_from, zero_part};
pub use moving::{copy, move_down, move_up, shift};
pub use splicing::{close_gap, open_gap, splice};
pub use writing::{put_byte, put_decimal, put_little_endian, put_part};
