//! What a report keeps of a trace, and how its next entry breaks the rules.
ghost use Rattle.std.specs.Prelude.{◌≡◌, ◌++◌, OnOk};
ghost use Rattle.link_frames.specs.Legs.{muting_limit as limit_of};
ghost use Rattle.view_reports.specs.Muting.{begun_by, left_in, listed, long_breaks, long_of};
ghost use Rattle.view_reports.specs.Watch.{breaks_at, is_opening, judged_behind, no_watch, owed_behind, owed_if, soon, soon_of, taken_behind, unopened, unshown};

use crate::breaks::Break;
use crate::calls::{Calls, moved_leg};
use crate::handled::SetOf;
use crate::limits::{LEAST_OPENING, is_data_timer, muting_limit};
use crate::queue::Queue;
use crate::sets::Sets;
use crate::side::Side;
use crate::stretch::Stretch;
use call_io::Memory;
use link_frames::{End, Note};
use std::alloc::{AllocError, Global};
use std::slice;
use trace_model::LegOf;

/// What is kept of the entries so far: the calls, the sets, of each end the stretches of muting whose bound hasn't passed, and
/// the leg whose voice must open next.
#[derive(Drop)]
pub(crate) struct Watch {
    pub(crate) calls: Calls,
    pub(crate) sets: Sets,
    pub(crate) vehicle: Queue,
    pub(crate) point: Queue,
    pub(crate) owed: Option<LegOf>,
}

impl Watch {
    /// Before any entry. It takes no memory yet.
    pub(crate) fn new(alloc: Global) -> Watch
        ensures { result ≡ no_watch }
    {
        Watch {
            calls: Calls::new(alloc),
            sets: Sets::new(alloc),
            vehicle: Queue::new(alloc),
            point: Queue::new(alloc),
            owed: None,
        }
    }

    /// Puts all by which an entry at this tick breaks a rule behind these breaks.
    pub(crate) fn judge(
        &mut self,
        note: &Note,
        now: u64,
        breaks: &mut Vec<Break>,
    ) -> Result<(), AllocError>
        ensures breaks { OnOk result (breaks.new.items ≡ breaks.old.items ++ breaks_at self.old note.now now) }
        ensures watch { OnOk result (self.new ≡ judged_behind self.old now) }
    {
        add(breaks, unshown(&self.sets, note))?;
        add(breaks, unopened(self.owed, &self.calls, note, now))?;
        add(breaks, soon(&self.calls, note, now))?;
        add_long(breaks, &self.calls, &mut self.vehicle, End::Vehicle, now)?;
        add_long(breaks, &self.calls, &mut self.point, End::Point, now)
    }

    /// Takes an item that stands in this line at this tick.
    pub(crate) fn take(&mut self, note: &Note, line: u64, now: u64) -> Result<(), Memory>
        ensures { OnOk result (self.new ≡ taken_behind self.old note.now line now) }
    {
        self.owed = owed_behind(&self.calls, note);
        self.sets.hear(note, now)?;
        self.calls.hear(note, line, now)?;
        let leg = moved_leg(note);
        begin(&mut self.vehicle, &self.calls, End::Vehicle, leg, line, now)?;
        begin(&mut self.point, &self.calls, End::Point, leg, line, now)
    }
}

/// Puts a break behind others, if there is one.
fn add(breaks: &mut Vec<Break>, broken: Option<Break>) -> Result<(), AllocError>
    ensures { OnOk result (breaks.new.items ≡ breaks.old.items ++ listed broken) }
{
    match broken {
        // A slice of one, since no proof can be made for `push` of an enum within an enum of another crate.
        Some(broken) => breaks.extend_from_slice(slice::from_ref(&broken)),
        None => Ok(()),
    }
}

/// The break of an item that acknowledges a set which was not shown.
fn unshown(sets: &Sets, note: &Note) -> Option<Break>
    ensures { result ≡ unshown sets.now note.now }
{
    match note {
        Note::Acked {
            call,
            request,
            octets,
        } => {
            let set = SetOf {
                call: *call,
                request: request.number(),
                octets: *octets,
            };
            match sets.times(&set).shown {
                Some(_) => None,
                None => Some(Break::Unshown { call: *call }),
            }
        }
        _ => None,
    }
}

/// Whether an item opens this leg's voice both ways.
fn is_opening(leg: LegOf, note: &Note) -> bool
    ensures { result ≡ is_opening leg note.now }
{
    match note {
        Note::Voice {
            end,
            call,
            up,
            down,
        } => *end == leg.of && *call == leg.call && *up && *down,
        _ => false,
    }
}

/// The break of an item that doesn't open the voice that must open.
fn unopened(owed: Option<LegOf>, calls: &Calls, note: &Note, now: u64) -> Option<Break>
    ensures { result ≡ unopened owed calls.now note.now now }
{
    let leg = owed?;
    if is_opening(leg, note) {
        return None;
    }
    let side = calls.side(leg.of, leg.call);
    Some(Break::Unopened {
        end: leg.of,
        call: leg.call,
        muted: now.saturating_sub(side.since),
    })
}

/// The break of a leg whose voice is turned muted too soon behind its opening.
fn soon_of(side: &Side, end: End, call: u32, now: u64) -> Option<Break>
    ensures { result ≡ soon_of side.now end call now }
{
    let open = now.saturating_sub(side.since);
    if side.is_up && side.talks && open < LEAST_OPENING {
        Some(Break::Soon { end, call, open })
    } else {
        None
    }
}

/// The break of an item that turns a voice muted too soon behind its opening.
fn soon(calls: &Calls, note: &Note, now: u64) -> Option<Break>
    ensures { result ≡ soon calls.now note.now now }
{
    match note {
        Note::Voice {
            end,
            call,
            up,
            down,
        } => {
            if *up && *down {
                return None;
            }
            soon_of(&calls.side(*end, *call), *end, *call, now)
        }
        _ => None,
    }
}

/// The break of a stretch whose bound has passed, where the voice is still muted.
fn long_of(side: &Side, end: End, stretch: Stretch, now: u64) -> Option<Break>
    ensures { result ≡ long_of side.now end stretch now }
{
    if side.is_muted() && side.line == stretch.line {
        Some(Break::Long {
            end,
            call: stretch.call,
            muted: now.saturating_sub(stretch.since),
        })
    } else {
        None
    }
}

/// Puts the breaks of voices of an end that are muted for longer than its bound behind others, and lets their stretches go.
fn add_long(
    breaks: &mut Vec<Break>,
    calls: &Calls,
    queue: &mut Queue,
    end: End,
    now: u64,
) -> Result<(), AllocError>
    ensures breaks { OnOk result (breaks.new.items ≡ breaks.old.items ++ long_breaks calls.now end now queue.old) }
    ensures queue { OnOk result (queue.new ≡ left_in (limit_of end) now queue.old) }
{
    let limit = muting_limit(end);
    while let Some(stretch) = queue.pop_over(limit, now) {
        let side = calls.side(end, stretch.call);
        add(breaks, long_of(&side, end, stretch, now))?;
    }
    Ok(())
}

/// The opening that is owed of a leg, where it is muted.
fn owed_if(side: &Side, of: End, call: u32) -> Option<LegOf>
    ensures { result ≡ owed_if side.now of call }
{
    if side.is_muted() {
        Some(LegOf { of, call })
    } else {
        None
    }
}

/// The opening that is owed behind an item.
fn owed_behind(calls: &Calls, note: &Note) -> Option<LegOf>
    ensures { result ≡ owed_behind calls.now note.now }
{
    match note {
        Note::Ended { end, call, timer } => {
            if is_data_timer(*timer) {
                owed_if(&calls.side(*end, *call), *end, *call)
            } else {
                None
            }
        }
        Note::Fault { end, call } => owed_if(&calls.side(*end, *call), *end, *call),
        _ => None,
    }
}

/// Notes the stretch of muting of an end that begins where this leg was moved in this line.
fn begin(
    queue: &mut Queue,
    calls: &Calls,
    end: End,
    leg: Option<LegOf>,
    line: u64,
    now: u64,
) -> Result<(), Memory>
    ensures { OnOk result (queue.new ≡ queue.old ++ begun_by leg end calls.now line now) }
{
    let Some(leg) = leg else {
        return Ok(());
    };
    let side = calls.side(end, leg.call);
    if end == leg.of && side.is_muted() && side.line == line {
        return queue.push(Stretch {
            call: leg.call,
            line,
            since: now,
        });
    }
    Ok(())
}
