// A record of the dataset, or one that the update inserts, loaded into the workspace as a version.
#![tactic(auto)]

pub mod part;
pub mod record;
