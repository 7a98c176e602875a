// The keys of a dataset's records.
#![tactic(auto)]

pub mod bits;
pub mod look;
pub mod order;
pub mod present;
pub mod sites;
pub mod slots;
pub mod table;
