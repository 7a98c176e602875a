// The general record of an update after that of a dataset: whether it follows, and the general record of the result.
#![tactic(auto)]

pub mod merging;
pub mod naming;
pub mod sources;
