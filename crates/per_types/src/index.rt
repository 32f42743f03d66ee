/// The value of an extensible enumeration (ITU-T X.691 (02/2021), clause 14).
#[derive(Clone, Copy, PartialEq, Eq, Debug)]
pub enum EnumIndex {
    /// The index of a root, counted from 0.
    Root(u8),
    /// The index of an addition, counted from 0, at most 63.
    Added(u8),
}
