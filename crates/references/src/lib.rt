// Number 11 of a dataset: every record that an association names exists.
#![tactic(auto)]

pub mod collecting;
pub mod dataset;
pub mod record;
pub mod vouching;
