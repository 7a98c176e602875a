// What every layer shares.
#![tactic(auto)]

// What a test finds wrong in a record: the refusal's number, and the field of the record and the tuple of the field that gave it, both from 1, 0 where none
// applies. The number is a number and no enum: the paper's rules, the theorems over them (`Answered`, the lists of `numbers`) and the C interface name refusals by it.
#[derive(Clone, Copy, PartialEq, Eq)]
pub struct Fault {
    pub number: u8,
    pub field: usize,
    pub tuple: usize,
}

// What a test finds wrong in a file: the record, from 1, and the fault in it.
#[derive(Clone, Copy, PartialEq, Eq)]
pub struct Refusal {
    pub rec: usize,
    pub fault: Fault,
}
