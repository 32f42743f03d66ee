//! What a unit tick brings for a pending desk request.

/// What a unit tick brings for a pending desk request.
#[derive(Clone, Copy, Debug, PartialEq, Eq)]
pub(crate) enum Turn {
    /// The desk gives it up.
    GivesUp,
    /// Its message is sent again.
    Resends,
    Waits,
}
