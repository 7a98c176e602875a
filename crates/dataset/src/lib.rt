// A whole dataset read.
#![tactic(auto)]

pub mod record;
pub mod walk;
