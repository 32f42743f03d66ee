//! A stretch of muting.

/// A stretch of muting, by its call and by the line and the tick at which it began.
#[derive(Clone, Copy)]
pub(crate) struct Stretch {
    pub(crate) call: u32,
    pub(crate) line: u64,
    pub(crate) since: u64,
}
