//! The last line of a trace, and how a run ends with it.

ghost use Rattle.std.specs.Prelude.{◌≡◌, ◌≤◌};
ghost use Rattle.call_io.specs.Blocks.{held, sink, way};
ghost use Rattle.call_io.specs.Bytes.{GrewPartly};
ghost use Rattle.call_io.specs.Ways.{Onward};
ghost use Rattle.live_link.specs.LastLine.{last_line, link_line, refusal_line};
ghost use Rattle.live_link.specs.inner.Closing.{CloseCause, Closes, has_failed};

use crate::answer::LiveStatus;
use arrayvec::ArrayVec;
use call_io::{Block, Sink, write_all};
use line_input::{BadLine, push_number};
use link_parts::LinkFault;

/// The most octets that a last line has: two words, three numbers, and what stands between and behind them.
const LONGEST_LINE: usize = 64;

/// A last line that is being built.
type LastLine = ArrayVec<u8, LONGEST_LINE>;

/// The line that refuses a line of the script.
fn refusal_text(bad: &BadLine) -> LastLine
    ensures { result.items ≡ refusal_line bad.now }
{
    let mut line = ArrayVec::new();
    line.try_extend_from_slice(b"refused").unwrap();
    push_number(&mut line, bad.line);
    push_number(&mut line, bad.reason.code());
    line.push(b'\n');
    line
}

/// The line that refuses an octet of the other end.
fn link_text(fault: &LinkFault) -> LastLine
    ensures { result.items ≡ link_line fault.now }
{
    let mut line = ArrayVec::new();
    line.try_extend_from_slice(b"refused link").unwrap();
    push_number(&mut line, fault.place);
    push_number(&mut line, fault.fault.code());
    push_number(&mut line, fault.octet);
    line.push(b'\n');
    line
}

/// The last line of a run that ended so; most have none.
fn last_text(status: &LiveStatus) -> LastLine
    ensures { result.items ≡ last_line status.now }
{
    match status {
        LiveStatus::Refused(bad) => refusal_text(bad),
        LiveStatus::LinkFault(fault) => link_text(fault),
        _ => ArrayVec::new(),
    }
}

/// Whether a read or a write failed.
fn has_failed(status: &LiveStatus) -> bool
    ensures { result ≡ has_failed status.now }
{
    match status {
        LiveStatus::ReadFault | LiveStatus::WriteFault => true,
        _ => false,
    }
}

/// Ends a run: the last line is written, and all of the trace is handed over. Behind a failed write nothing more is
/// written, nor behind a failed read, before which all was handed over.
#[tactic(auto, using(crate::proofs::ClosingLemmas::closes_failed, crate::proofs::ClosingLemmas::closes_whole, crate::proofs::ClosingLemmas::closes_cut))]
pub(crate) fn close<O: Sink>(status: LiveStatus, trace: &mut Block<'_, O>) -> LiveStatus
    ensures closes { Closes status result (held O.held trace.old) (O.held (sink trace.new)) }
    ensures partly { GrewPartly (held O.held trace.old) (held O.held trace.new) (last_line status) }
    ensures cause { CloseCause status result (O.faults (sink trace.old)) (O.faults (sink trace.new)) }
    ensures counted { O.faults (sink trace.old) ≤ O.faults (sink trace.new) }
    ensures onward { Onward (way O.held trace.old) (way O.held trace.new) }
{
    if has_failed(&status) {
        return status;
    }
    let line = last_text(&status);
    if write_all(trace, line.as_slice()).is_err() || trace.empty().is_err() {
        return LiveStatus::WriteFault;
    }
    status
}
