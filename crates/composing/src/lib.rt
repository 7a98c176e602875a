// The records of an update's result, one by one.
#![tactic(auto)]

pub mod acts;
pub mod carrying;
pub mod held;
pub mod making;
pub mod naming;
pub mod standing;
