//! The rules by which a trace is safe.

ghost use Rattle.std.specs.Prelude.{◌≡◌};
ghost use Rattle.trace_model.specs.Rules.{rule_number};

/// A rule by which a trace is safe, in the order of the rules' numbers. After EN 16062 (the voice is open wherever no
/// data is sent); the bounds are this project's profile.
#[derive(Clone, Copy, Debug, PartialEq, Eq)]
pub enum Rule {
    /// Each acknowledged set was shown earlier for that call and request, octet for octet.
    Agreed,
    /// Where a wait for data ends, or a fault comes, a muted voice opens both ways in the next line.
    Opened,
    /// No leg that is up is muted for more than 320 ticks at the vehicle or 275 at the point, and no voice is muted
    /// within 20 ticks of its opening.
    Bounded,
}

impl Rule {
    /// The number by which a reply names it, 1 to 3.
    pub fn number(self) -> u8
        ensures { result ≡ rule_number self }
    {
        match self {
            Rule::Agreed => 1,
            Rule::Opened => 2,
            Rule::Bounded => 3,
        }
    }
}
