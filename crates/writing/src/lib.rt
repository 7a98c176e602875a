// One record written in the house form, straight from the bytes of a record in any encoding.
#![tactic(auto)]

pub mod joining;
pub mod measuring;
pub mod parts;
pub mod writer;

pub use measuring::written_length;
pub use writer::write_record;
