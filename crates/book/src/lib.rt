// Keys put in order some thousand at a time: whether a key stood earlier where flags do not tell.
#![tactic(auto)]

pub mod book;
pub mod first;
pub mod once;
pub mod order;
pub mod rcids;
