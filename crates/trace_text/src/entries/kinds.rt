//! What the first word of an item, and that of a frame, says.

ghost use Rattle.std.specs.Prelude.{◌≡◌};
ghost use Rattle.trace_text.specs.EntryChoices.{call_item, dial_item, item_of, kind_of, leg_item, other_item, rest_item, vehicle_item};

use line_input::is_word;

/// Which item a line of a trace has.
#[derive(Clone, Copy, Debug, PartialEq, Eq)]
pub enum Item {
    Dial,
    Failed,
    GaveUp,
    Seeking,
    Arming,
    Cancelled,
    Standby,
    Idle,
    Nothing,
    Net,
    Up,
    Down,
    Voice,
    Send,
    Shown,
    Acked,
    Ended,
    Fault,
    Busy,
    Spent,
    Unshown,
    Restart,
}

/// Which frame a `send` item has.
#[derive(Clone, Copy, Debug, PartialEq, Eq)]
pub enum FrameKind {
    Init,
    Start,
    Data,
    Nack,
    Ack,
    App,
}

/// The item of a first word.
#[tactic(auto, unfolding(crate::specs::EntryChoices::item_of))]
pub fn read_item(text: &[u8]) -> Option<Item>
    ensures { result ≡ item_of text.now }
{
    match read_leg_item(text) {
        Some(found) => Some(found),
        None => read_other_item(text),
    }
}

/// Any item but one of a leg.
fn read_other_item(text: &[u8]) -> Option<Item>
    ensures { result ≡ other_item text.now }
{
    match read_call_item(text) {
        Some(found) => Some(found),
        None => read_vehicle_item(text),
    }
}

/// An item that has no call.
fn read_vehicle_item(text: &[u8]) -> Option<Item>
    ensures { result ≡ vehicle_item text.now }
{
    match read_dial_item(text) {
        Some(found) => Some(found),
        None => read_rest_item(text),
    }
}

/// An item of a leg.
fn read_leg_item(text: &[u8]) -> Option<Item>
    ensures { result ≡ leg_item text.now }
{
    if is_word(text, "send") {
        Some(Item::Send)
    } else if is_word(text, "ended") {
        Some(Item::Ended)
    } else if is_word(text, "voice") {
        Some(Item::Voice)
    } else if is_word(text, "up") {
        Some(Item::Up)
    } else if is_word(text, "down") {
        Some(Item::Down)
    } else if is_word(text, "fault") {
        Some(Item::Fault)
    } else {
        None
    }
}

/// An item of a call.
fn read_call_item(text: &[u8]) -> Option<Item>
    ensures { result ≡ call_item text.now }
{
    if is_word(text, "shown") {
        Some(Item::Shown)
    } else if is_word(text, "acked") {
        Some(Item::Acked)
    } else if is_word(text, "busy") {
        Some(Item::Busy)
    } else if is_word(text, "spent") {
        Some(Item::Spent)
    } else if is_word(text, "unshown") {
        Some(Item::Unshown)
    } else {
        None
    }
}

/// An item of a vehicle that is about to call, or of its network.
fn read_dial_item(text: &[u8]) -> Option<Item>
    ensures { result ≡ dial_item text.now }
{
    if is_word(text, "dial") {
        Some(Item::Dial)
    } else if is_word(text, "failed") {
        Some(Item::Failed)
    } else if is_word(text, "net") {
        Some(Item::Net)
    } else if is_word(text, "gaveup") {
        Some(Item::GaveUp)
    } else if is_word(text, "seeking") {
        Some(Item::Seeking)
    } else {
        None
    }
}

/// Any other item.
fn read_rest_item(text: &[u8]) -> Option<Item>
    ensures { result ≡ rest_item text.now }
{
    if is_word(text, "arming") {
        Some(Item::Arming)
    } else if is_word(text, "cancelled") {
        Some(Item::Cancelled)
    } else if is_word(text, "standby") {
        Some(Item::Standby)
    } else if is_word(text, "idle") {
        Some(Item::Idle)
    } else if is_word(text, "nothing") {
        Some(Item::Nothing)
    } else if is_word(text, "restart") {
        Some(Item::Restart)
    } else {
        None
    }
}

/// The kind of a frame.
pub fn read_kind(text: &[u8]) -> Option<FrameKind>
    ensures { result ≡ kind_of text.now }
{
    if is_word(text, "data") {
        Some(FrameKind::Data)
    } else if is_word(text, "init") {
        Some(FrameKind::Init)
    } else if is_word(text, "start") {
        Some(FrameKind::Start)
    } else if is_word(text, "nack") {
        Some(FrameKind::Nack)
    } else if is_word(text, "ack") {
        Some(FrameKind::Ack)
    } else if is_word(text, "app") {
        Some(FrameKind::App)
    } else {
        None
    }
}
