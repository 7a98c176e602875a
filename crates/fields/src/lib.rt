// The contents of fields.
#![tactic(auto)]

pub mod counting;
pub mod head;
pub mod number;
pub mod often;
pub mod row;
pub mod subfield;
pub mod text;
pub mod tuples;

pub use counting::tally_of;
pub use head::head_place;
pub use number::{le8, le16, le32, signed};
pub use text::text_end;
pub use tuples::tuple_at;

// The formats of fields. New: every instruction in it is insert; Gone: it is delete, and nothing follows.
#[derive(Clone, Copy)]
pub enum Format {
    Dsid,
    DsidUpdate,
    Irid,
    IridNew,
    Prid,
    PridNew,
    Mrid,
    MridNew,
    Frid,
    FridNew,
    Foid,
    Attr,
    AttrNew,
    InasNew,
    InasGone,
    Spas,
    SpasNew,
    Cocc,
    C2it,
    C2il,
}

// How one subfield is written: a number of 1, 2 or 4 bytes within a range, one of four values, a number of so many bytes without a range,
// a text that 1F ends, a text of so many bytes.
#[derive(Clone, Copy)]
pub enum Sub {
    B11(u32, u32),
    B12(u32, u32),
    B14(u32, u32),
    Among(u32, u32, u32, u32),
    Raw(usize),
    Text,
    Fixed(usize),
}
