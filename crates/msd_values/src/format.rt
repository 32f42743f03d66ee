//! The formats of a set.
ghost use Rattle.std.specs.Prelude.{◌≡◌, ◌≤◌};
ghost use Rattle.msd_values.specs.Format.{format_number};

/// The format of a set of data, by which its octets are read and written.
#[derive(Clone, Copy, Debug, PartialEq, Eq)]
pub enum Format {
    One,
    Two,
}

impl Format {
    /// Its number, 1 or 2.
    pub fn number(self) -> u8
        ensures { result ≡ format_number self }
    {
        match self {
            Format::One => 1,
            Format::Two => 2,
        }
    }
}
