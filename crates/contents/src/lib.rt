// The contents of one record's fields: numbers 5, 6 and 7 within the record, and what its identifier says.
#![tactic(auto)]

pub mod associations;
pub mod codes;
pub mod content;
pub mod counts;
pub mod earlier;
pub mod formats;
pub mod identifier;
pub mod once;
pub mod passed;
pub mod spatial;
pub mod strays;
pub mod trees;
