// The first records of a file: those that are carried unread, and the general record.
#![tactic(auto)]

pub mod carried;
pub mod general;
