//! How a report is laid out, and what it judges.

use link_frames::End;

/// How a report is laid out.
#[derive(Clone, Copy, Debug, PartialEq, Eq)]
pub enum Layout {
    /// A sentence a line, for people.
    Sentences,
    /// An object in JSON a line, for other tools.
    Objects,
}

/// How a report is laid out, and which end it judges alone, if it judges one.
#[derive(Clone, Copy, Debug, PartialEq, Eq)]
pub struct Manner {
    pub layout: Layout,
    pub end: Option<End>,
}
