//! The formats by which sets of data are read and written.

/// The numbers of the known formats.
pub const FORMATS: [u8; 2] = [1, 2];
