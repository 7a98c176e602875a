// A record's coordinate tuples in lent memory: their bytes one after the other, 8 a tuple.
#![tactic(auto)]

pub mod placing;
pub mod tuples;
