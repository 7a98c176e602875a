// A reader of one record that steps from field to field, and fields by their number in a record and in a file.
#![tactic(auto)]

pub mod file;
pub mod numbered;
pub mod places;
pub mod reader;
