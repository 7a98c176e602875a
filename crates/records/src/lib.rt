// One record: its tests number by number.
#![tactic(auto)]

pub mod grammar;
pub mod order;
pub mod rows;
pub mod tagged;
