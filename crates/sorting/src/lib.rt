// An index of an update's records by the keys that they name: numbers in a byte slice, sorted, and searched by halves.
#![tactic(auto)]

pub mod found;
pub mod heap;
pub mod index;
pub mod limits;
pub mod numbers;
pub mod order;
