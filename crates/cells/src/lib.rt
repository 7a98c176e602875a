// Associations in lent memory, as references to their bytes.
#![tactic(auto)]

pub mod acting;
pub mod cell;
pub mod inas;
pub mod length;
pub mod search;
pub mod spas;
