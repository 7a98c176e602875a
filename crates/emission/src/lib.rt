// The record that the workspace holds, measured and written in the written form.
#![tactic(auto)]

pub mod bodies;
pub mod directory;
pub mod identifier;
pub mod lists;
pub mod measuring;
pub mod writer;

pub use measuring::version_length;
pub use writer::write_version;
