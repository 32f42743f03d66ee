//! The lines of a script with a relay desk.

ghost use Rattle.std.specs.Prelude.{◌≡◌};
ghost use Rattle.std.specs.Option.{option_copied};
ghost use Rattle.line_input.specs.Arguments.{words_behind};
ghost use Rattle.line_input.specs.Lines.{line_answer};
ghost use Rattle.line_input.specs.Numbers.{positive};
ghost use Rattle.line_input.specs.Words.{words};
ghost use Rattle.relay_text.specs.RelayLines.{hand_line, hand_of, order_by_word, order_line, order_or, order_says, pass_line, relay_line};
ghost use Rattle.relay_text.specs.declared.line.RelayOrder.TheVariants as order;

use line_input::{
    BadLine, Line, Reason, is_word, only_argument, read_positive_u32, split_word, two_arguments,
};
use trace_model::Positive;
use trace_text::{ScriptLine, read_text};

/// What a line has the relay desk, or its link, do.
#[derive(Clone, Copy, Debug, PartialEq, Eq)]
pub enum RelayOrder {
    /// The set shown last in that call is to go on to the second point.
    Pass(Positive),
    /// The k-th message ever sent to the second point, from 1, is handed over.
    Forth(Positive),
    /// The k-th message ever sent back by the second point, from 1, is handed over.
    Back(Positive),
}

/// What a line of a script with a relay desk says.
#[derive(Clone, Copy, Debug, PartialEq, Eq)]
pub enum RelayLine {
    /// What a line of a script says.
    Script(ScriptLine),
    /// What the relay desk, or its link, is to do.
    Order(RelayOrder),
}

/// What a line of a script with a relay desk says by itself. Whether it may stand where it stands is not judged here.
pub fn read_relay_line(line: &Line<'_>) -> Result<RelayLine, BadLine>
    ensures { result ≡ line_answer line.now (relay_line line.now.text) }
{
    match read_relay_text(line.text()) {
        Ok(says) => Ok(says),
        Err(reason) => Err(BadLine {
            line: line.number(),
            reason,
        }),
    }
}

/// What the text of such a line says by itself, or why it is refused.
pub(crate) fn read_relay_text(text: &[u8]) -> Result<RelayLine, Reason>
    ensures { result ≡ relay_line text.now }
{
    match read_order(text) {
        Some(order) => told(order),
        None => {
            let says = read_text(text)?;
            Ok(RelayLine::Script(says))
        }
    }
}

fn told(order: Result<RelayOrder, Reason>) -> Result<RelayLine, Reason>
    ensures { result ≡ order_says order }
{
    let order = order?;
    Ok(RelayLine::Order(order))
}

/// What a line has the relay desk do; `None` where its first word is of no such line.
fn read_order(text: &[u8]) -> Option<Result<RelayOrder, Reason>>
    ensures { result ≡ order_line (words text.now) }
{
    let (first, rest) = split_word(text);
    read_order_of(first, rest)
}

/// The same by the first word and what stands behind it.
fn read_order_of(first: &[u8], rest: Option<&[u8]>) -> Option<Result<RelayOrder, Reason>>
    ensures { result ≡ order_by_word first.now (words_behind (option_copied rest.entry)) }
{
    if is_word(first, "pass") {
        Some(read_pass(rest))
    } else if is_word(first, "hand") {
        Some(read_hand(rest))
    } else {
        None
    }
}

/// `pass <call>`.
fn read_pass(rest: Option<&[u8]>) -> Result<RelayOrder, Reason>
    ensures { result ≡ pass_line (words_behind (option_copied rest.entry)) }
{
    let call = read_positive(only_argument(rest).ok_or(Reason::Count)?).ok_or(Reason::Number)?;
    Ok(RelayOrder::Pass(call))
}

/// `hand forth|back <k>`.
fn read_hand(rest: Option<&[u8]>) -> Result<RelayOrder, Reason>
    ensures { result ≡ hand_line (words_behind (option_copied rest.entry)) }
{
    let (way, k) = two_arguments(rest).ok_or(Reason::Count)?;
    read_hand_of(way, k)
}

/// Which way a message is handed over, and its number.
fn read_hand_of(way: &[u8], k: &[u8]) -> Result<RelayOrder, Reason>
    ensures { result ≡ hand_of way.now (positive k.now) }
{
    if is_word(way, "forth") {
        read_forth(k)
    } else if is_word(way, "back") {
        read_back(k)
    } else {
        Err(Reason::Word)
    }
}

fn read_forth(k: &[u8]) -> Result<RelayOrder, Reason>
    ensures { result ≡ order_or order.Forth (positive k.now) }
{
    let k = read_positive(k).ok_or(Reason::Number)?;
    Ok(RelayOrder::Forth(k))
}

fn read_back(k: &[u8]) -> Result<RelayOrder, Reason>
    ensures { result ≡ order_or order.Back (positive k.now) }
{
    let k = read_positive(k).ok_or(Reason::Number)?;
    Ok(RelayOrder::Back(k))
}

/// A number from 1 to 4294967295.
fn read_positive(text: &[u8]) -> Option<Positive>
    ensures { result ≡ positive text.now }
{
    Positive::new(read_positive_u32(text)?)
}
