//! Which lines are refused or passed over, whatever they say.
ghost use Rattle.std.specs.Prelude.{◌≡◌};
ghost use Rattle.std.specs.List.{list_all};
ghost use Rattle.line_input.specs.Lines.{is_comment, is_printable, line_fault};

use line_input::Reason;

/// The most bytes of a line.
const MOST_IN_LINE: usize = 512;

/// Whether each byte may stand in a line.
fn is_printable(line: &[u8]) -> bool
    ensures { result ≡ list_all is_printable line.now }
{
    let mut all = true;
    for byte in line {
        all &= b' ' <= *byte && *byte <= b'~';
    }
    all
}

/// Why a line is refused, whatever it says.
pub fn line_fault(line: &[u8]) -> Option<Reason>
    ensures { result ≡ line_fault line.now }
{
    if line.len() > MOST_IN_LINE {
        Some(Reason::LineLong)
    } else if is_printable(line) {
        None
    } else {
        Some(Reason::Text)
    }
}

/// Whether a line is empty, or begins with `#`.
pub fn is_comment(line: &[u8]) -> bool
    ensures { result ≡ is_comment line.now }
{
    match line.first() {
        Some(first) => *first == b'#',
        None => true,
    }
}
