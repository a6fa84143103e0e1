// Pointers from one record to a vector record.

/// A pointer of a vector record to another (VRPT; S-57 Edition 3.1, Part 3, 7.7.1.4). `rcnm` and `rcid` are its NAME.
#[derive(Clone, Copy, Debug, PartialEq, Eq)]
pub struct Vrpt {
    pub rcnm: u8,
    pub rcid: u32,
    pub ornt: u8,
    pub usag: u8,
    pub topi: u8,
    pub mask: u8,
}

/// A pointer of a feature to a vector record (FSPT; S-57 Edition 3.1, Part 3, 7.6.8). `rcnm` and `rcid` are its NAME.
#[derive(Clone, Copy, Debug, PartialEq, Eq)]
pub struct Fspt {
    pub rcnm: u8,
    pub rcid: u32,
    pub ornt: u8,
    pub usag: u8,
    pub mask: u8,
}
