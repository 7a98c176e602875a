// The verdicts on an update's records, each by the history of the key that it names.
#![tactic(auto)]

pub mod finding;
pub mod flags;
pub mod judging;
pub mod playing;
pub mod single;
