// The working form of a record's attributes in lent memory.
#![tactic(auto)]

pub mod item;
pub mod loading;

pub use item::{depth_under, number, put_item, put_ref, twin};
pub use loading::load;
