// The working form of a record's attributes written back as the tuples of an ATTR field.
#![tactic(auto)]

pub mod back;
pub mod block;
pub mod emitting;
pub mod known;
pub mod parents;
pub mod values;

pub use emitting::{emit, size};
