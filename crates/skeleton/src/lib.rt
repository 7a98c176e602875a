// The record skeleton of ISO/IEC 8211: leader, directory, field bounds.
#![tactic(auto)]

pub mod digits;
pub mod directory;
pub mod file;
pub mod leader;
pub mod place;
