//! The event lines of a script, each read by a function of its own.

ghost use Rattle.std.specs.Prelude.{◌≡◌};
ghost use Rattle.std.specs.Option.{option_copied};
ghost use Rattle.trace_text.specs.EventLines.{channel_event, deliver_line, drop_line, drop_of, end_event, event_line, fault_line, fault_of, flow_line, lone_line, net_line, number_line, only_number, point_event, reset_line, trigger_line, vehicle_event};
ghost use Rattle.trace_model.specs.declared.event.Event.TheVariants as event;
ghost use Rattle.line_input.specs.Arguments.{words_behind};

use crate::choices::{read_cause, read_direction, read_end};
use crate::numbers::{read_delay, read_positive};
use line_input::{Reason, is_word, only_argument, split_word, three_arguments, two_arguments};
use trace_model::{Event, Positive};

/// An event line by its first word and what stands behind it. Out of line, since lines are read in two ways.
#[inline(never)]
pub fn read_event(first: &[u8], rest: Option<&[u8]>) -> Result<Event, Reason>
    ensures { result ≡ event_line first.now (words_behind (option_copied rest.entry)) }
{
    match read_channel_event(first, rest) {
        Some(says) => says,
        None => read_end_event(first, rest),
    }
}

/// An event of the channel, of either end or of time.
fn read_channel_event(first: &[u8], rest: Option<&[u8]>) -> Option<Result<Event, Reason>>
    ensures { result ≡ channel_event first.now (words_behind (option_copied rest.entry)) }
{
    if is_word(first, "deliver") {
        Some(read_deliver(rest))
    } else if is_word(first, "tick") {
        Some(read_tick(rest))
    } else if is_word(first, "flow") {
        Some(read_flow(rest))
    } else if is_word(first, "drop") {
        Some(read_drop(rest))
    } else if is_word(first, "fault") {
        Some(read_fault(rest))
    } else if is_word(first, "reset") {
        Some(read_reset(rest))
    } else {
        None
    }
}

/// An event at one of the ends.
fn read_end_event(first: &[u8], rest: Option<&[u8]>) -> Result<Event, Reason>
    ensures { result ≡ end_event first.now (words_behind (option_copied rest.entry)) }
{
    match read_vehicle_event(first, rest) {
        Some(says) => says,
        None => read_point_event(first, rest),
    }
}

/// An event at the vehicle.
fn read_vehicle_event(first: &[u8], rest: Option<&[u8]>) -> Option<Result<Event, Reason>>
    ensures { result ≡ vehicle_event first.now (words_behind (option_copied rest.entry)) }
{
    if is_word(first, "trigger") {
        Some(read_trigger(rest))
    } else if is_word(first, "cancel") {
        Some(read_lone(rest, Event::Cancel))
    } else if is_word(first, "net") {
        Some(read_net(rest))
    } else if is_word(first, "fail") {
        Some(read_lone(rest, Event::Fail))
    } else if is_word(first, "sleep") {
        Some(read_lone(rest, Event::Sleep))
    } else {
        None
    }
}

/// An event at the point.
fn read_point_event(first: &[u8], rest: Option<&[u8]>) -> Result<Event, Reason>
    ensures { result ≡ point_event first.now (words_behind (option_copied rest.entry)) }
{
    if is_word(first, "answer") {
        read_lone(rest, Event::Answer)
    } else if is_word(first, "callback") {
        read_lone(rest, Event::Callback)
    } else if is_word(first, "damaged") {
        read_damaged(rest)
    } else if is_word(first, "request") {
        read_request(rest)
    } else if is_word(first, "clear") {
        read_clear(rest)
    } else if is_word(first, "hangup") {
        read_hangup(rest)
    } else {
        Err(Reason::Word)
    }
}

/// A line that takes no argument.
fn read_lone(rest: Option<&[u8]>, event: Event) -> Result<Event, Reason>
    ensures { result ≡ lone_line event (words_behind (option_copied rest.entry)) }
{
    match rest {
        None => Ok(event),
        Some(_) => Err(Reason::Count),
    }
}

/// The number of a line that takes just one.
fn read_number(rest: Option<&[u8]>) -> Result<Positive, Reason>
    ensures { result ≡ only_number (words_behind (option_copied rest.entry)) }
{
    read_positive(only_argument(rest).ok_or(Reason::Count)?).ok_or(Reason::Number)
}

/// `deliver up|down <call> <k>`.
fn read_deliver(rest: Option<&[u8]>) -> Result<Event, Reason>
    ensures { result ≡ deliver_line (words_behind (option_copied rest.entry)) }
{
    let (way, call, k) = three_arguments(rest).ok_or(Reason::Count)?;
    let up = read_direction(way).ok_or(Reason::Word)?;
    let call = read_positive(call).ok_or(Reason::Number)?;
    let k = read_positive(k).ok_or(Reason::Number)?;
    Ok(Event::Deliver { up, call, k })
}

/// `tick <1..4294967295>`.
fn read_tick(rest: Option<&[u8]>) -> Result<Event, Reason>
    ensures { result ≡ number_line event.Tick (words_behind (option_copied rest.entry)) }
{
    let ticks = read_number(rest)?;
    Ok(Event::Tick(ticks))
}

/// `flow up|down <0..1000>`.
fn read_flow(rest: Option<&[u8]>) -> Result<Event, Reason>
    ensures { result ≡ flow_line (words_behind (option_copied rest.entry)) }
{
    let (way, ticks) = two_arguments(rest).ok_or(Reason::Count)?;
    let up = read_direction(way).ok_or(Reason::Word)?;
    let delay = read_delay(ticks).ok_or(Reason::Number)?;
    Ok(Event::Flow { up, delay })
}

/// `drop vehicle`, `drop point <call>` or `drop both <call>`.
fn read_drop(rest: Option<&[u8]>) -> Result<Event, Reason>
    ensures { result ≡ drop_line (words_behind (option_copied rest.entry)) }
{
    let (second, rest) = split_word(rest.ok_or(Reason::Count)?);
    read_drop_of(second, rest)
}

/// What is dropped, by the second word and what stands behind it.
fn read_drop_of(second: &[u8], rest: Option<&[u8]>) -> Result<Event, Reason>
    ensures { result ≡ drop_of second.now (words_behind (option_copied rest.entry)) }
{
    if is_word(second, "vehicle") {
        read_lone(rest, Event::DropVehicle)
    } else if is_word(second, "point") {
        let call = read_number(rest)?;
        Ok(Event::DropPoint(call))
    } else if is_word(second, "both") {
        let call = read_number(rest)?;
        Ok(Event::DropBoth(call))
    } else {
        Err(Reason::Word)
    }
}

/// `fault vehicle` or `fault point <call>`.
fn read_fault(rest: Option<&[u8]>) -> Result<Event, Reason>
    ensures { result ≡ fault_line (words_behind (option_copied rest.entry)) }
{
    let (second, rest) = split_word(rest.ok_or(Reason::Count)?);
    read_fault_of(second, rest)
}

/// What is at fault, by the second word and what stands behind it.
fn read_fault_of(second: &[u8], rest: Option<&[u8]>) -> Result<Event, Reason>
    ensures { result ≡ fault_of second.now (words_behind (option_copied rest.entry)) }
{
    if is_word(second, "vehicle") {
        read_lone(rest, Event::FaultVehicle)
    } else if is_word(second, "point") {
        let call = read_number(rest)?;
        Ok(Event::FaultPoint(call))
    } else {
        Err(Reason::Word)
    }
}

/// `reset vehicle|point`.
fn read_reset(rest: Option<&[u8]>) -> Result<Event, Reason>
    ensures { result ≡ reset_line (words_behind (option_copied rest.entry)) }
{
    let text = only_argument(rest).ok_or(Reason::Count)?;
    let end = read_end(text).ok_or(Reason::Word)?;
    Ok(Event::Reset(end))
}

/// `trigger auto|manual|test`.
fn read_trigger(rest: Option<&[u8]>) -> Result<Event, Reason>
    ensures { result ≡ trigger_line (words_behind (option_copied rest.entry)) }
{
    let text = only_argument(rest).ok_or(Reason::Count)?;
    let cause = read_cause(text).ok_or(Reason::Word)?;
    Ok(Event::Trigger(cause))
}

/// `net up|down`.
fn read_net(rest: Option<&[u8]>) -> Result<Event, Reason>
    ensures { result ≡ net_line (words_behind (option_copied rest.entry)) }
{
    let text = only_argument(rest).ok_or(Reason::Count)?;
    let up = read_direction(text).ok_or(Reason::Word)?;
    Ok(Event::Net(up))
}

/// `damaged <call>`.
fn read_damaged(rest: Option<&[u8]>) -> Result<Event, Reason>
    ensures { result ≡ number_line event.Damaged (words_behind (option_copied rest.entry)) }
{
    let call = read_number(rest)?;
    Ok(Event::Damaged(call))
}

/// `request <call>`.
fn read_request(rest: Option<&[u8]>) -> Result<Event, Reason>
    ensures { result ≡ number_line event.Request (words_behind (option_copied rest.entry)) }
{
    let call = read_number(rest)?;
    Ok(Event::Request(call))
}

/// `clear <call>`.
fn read_clear(rest: Option<&[u8]>) -> Result<Event, Reason>
    ensures { result ≡ number_line event.Clear (words_behind (option_copied rest.entry)) }
{
    let call = read_number(rest)?;
    Ok(Event::Clear(call))
}

/// `hangup <call>`.
fn read_hangup(rest: Option<&[u8]>) -> Result<Event, Reason>
    ensures { result ≡ number_line event.Hangup (words_behind (option_copied rest.entry)) }
{
    let call = read_number(rest)?;
    Ok(Event::Hangup(call))
}
