// An update, first pass: every record on its own.
#![tactic(auto)]

pub mod record;
pub mod walk;
