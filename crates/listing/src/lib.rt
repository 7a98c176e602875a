// The listing of a dataset: a line for each of its records after the third.
#![tactic(auto)]

pub mod counts;
pub mod lines;
pub mod text;
pub mod walk;

pub use walk::list;
