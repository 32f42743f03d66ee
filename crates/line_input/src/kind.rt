//! What a line is, before anything is read from it.

ghost use Rattle.std.specs.Prelude.{◌≡◌, ◌≤◌, true, length};
ghost use Rattle.std.specs.List.{list_all};
ghost use Rattle.line_input.specs.Lines.{line_fault, is_comment as is_comment_line, is_printable as is_printable_byte};
ghost use Rattle.line_input.specs.inner.Kinds.{kind_of_gathered};

use crate::gather::Ending;
use crate::reason::Reason;

/// What a line is whose bytes were gathered.
#[derive(Clone, Copy, Debug, PartialEq, Eq)]
pub enum LineKind {
    /// It is none: the input ended in front of it.
    NoLine,
    /// It is refused, whatever it says.
    Refused(Reason),
    /// It is empty, or begins with `#`.
    PassedOver,
    /// It says something.
    Says,
}

/// What a line is whose bytes were gathered, or are lent, and ended so. They are plain where each is known to be one
/// that may stand in a line.
pub fn kind_of(ending: Ending, text: &[u8], plain: bool) -> LineKind
    requires short { length text.now ≤ 512 }
    requires known { plain ≡ true → list_all is_printable_byte text.now ≡ true }
    ensures { result ≡ kind_of_gathered ending text.now }
{
    match ending {
        Ending::Full => LineKind::Refused(Reason::LineLong),
        Ending::InputEnd if text.is_empty() => LineKind::NoLine,
        Ending::InputEnd | Ending::Newline => match fault_of(text, plain) {
            Some(reason) => LineKind::Refused(reason),
            None if is_comment(text) => LineKind::PassedOver,
            None => LineKind::Says,
        },
    }
}

/// Why a line of at most 512 bytes is refused, whatever it says. Plain ones aren't looked at.
fn fault_of(text: &[u8], plain: bool) -> Option<Reason>
    requires short { length text.now ≤ 512 }
    requires known { plain ≡ true → list_all is_printable_byte text.now ≡ true }
    ensures { result ≡ line_fault text.now }
{
    if plain || is_printable(text) {
        None
    } else {
        Some(Reason::Text)
    }
}

/// Whether a line is passed over: it is empty, or begins with `#`.
fn is_comment(text: &[u8]) -> bool
    ensures { result ≡ is_comment_line text.now }
{
    match text.first() {
        Some(first) => *first == b'#',
        None => true,
    }
}

/// Whether each byte may stand in a line.
fn is_printable(text: &[u8]) -> bool
    ensures { result ≡ list_all is_printable_byte text.now }
{
    // All bytes are looked at, also behind one that may not stand: so the compiler compares many at once.
    let mut all = true;
    for byte in text {
        all &= may_stand(*byte);
    }
    all
}

/// Whether a byte may stand in a line.
pub fn may_stand(byte: u8) -> bool
    ensures { result ≡ is_printable_byte byte }
{
    b' ' <= byte && byte <= b'~'
}
