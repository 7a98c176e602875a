// The tags of fields: four letters as one number, the first the highest.

// The general record: dataset identification, and the fields that are carried unread.
pub const DSID: u32 = 0x44534944;

pub const DSSI: u32 = 0x44535349;

pub const ATCS: u32 = 0x41544353;

pub const ITCS: u32 = 0x49544353;

pub const FTCS: u32 = 0x46544353;

pub const IACS: u32 = 0x49414353;

pub const FACS: u32 = 0x46414353;

pub const ARCS: u32 = 0x41524353;

// The coordinate reference systems: the third record of a dataset.
pub const CSID: u32 = 0x43534944;

// The identifiers of information types, points, multi points and features.
pub const IRID: u32 = 0x49524944;

pub const PRID: u32 = 0x50524944;

pub const MRID: u32 = 0x4d524944;

pub const FRID: u32 = 0x46524944;

// The feature object's identifier.
pub const FOID: u32 = 0x464f4944;

// Attributes, information associations, spatial associations.
pub const ATTR: u32 = 0x41545452;

pub const INAS: u32 = 0x494e4153;

pub const SPAS: u32 = 0x53504153;

// Where coordinate tuples go, a point's tuple, a list of tuples.
pub const COCC: u32 = 0x434f4343;

pub const C2IT: u32 = 0x43324954;

pub const C2IL: u32 = 0x4332494c;
