// The present version of one record in the workspace.
#![tactic(auto)]

use rules::Kind;

pub mod areas;

// What is kept of a version by value: its identifier, where the eight bytes of its FOID stand, how many items each area of the workspace holds, and
// the sizes that are no multiples of these counts: the bytes of the attributes' tuples, and those of the INAS fields, the 1E of each included.
#[derive(Clone, Copy)]
pub struct Version {
    pub kind: Kind,
    pub rcid: u32,
    pub code: u16,
    pub rver: u16,
    pub foids: usize,
    pub foid: usize,
    pub slice: u8,
    pub attr: usize,
    pub inas: usize,
    pub coord: usize,
    pub spas: usize,
    pub attrbytes: usize,
    pub inasbytes: usize,
}
