//! Messages to the other end.

ghost use Rattle.std.specs.Prelude.{◌≡◌, ◌≤◌, ◌++◌, ◌∷◌, [], OnOk, OnErr};
ghost use Rattle.call_io.specs.Bytes.{Grew, GrewPartly};
ghost use Rattle.link_parts.specs.Messages.{message_end};
ghost use Rattle.live_link.specs.inner.Going.{Answers, IsOfSending, Unwritten, failed_of};

use crate::answer::LiveStatus;
use crate::fault::EndFault;
use call_io::{Sink, write_all};
use link_parts::MESSAGE_END;
use std::alloc::AllocError;

/// Puts the octets of a message into a room of its own.
fn fill(room: &mut Vec<u8>, gathered: &[u8]) -> Result<(), AllocError>
    ensures { OnOk result (room.new.items ≡ gathered.now ++ message_end ∷ []) }
{
    room.clear();
    room.extend_from_slice(gathered)?;
    room.push(MESSAGE_END)?;
    Ok(())
}

/// Writes the message of these gathered octets, at once.
pub(crate) fn send<P: Sink>(
    gathered: &[u8],
    room: &mut Vec<u8>,
    to: &mut P,
) -> Result<(), LiveStatus>
    ensures sent { OnOk result (Grew (P.held to.old) (P.held to.new) (gathered.now ++ message_end ∷ [])) }
    ensures partly { OnErr result (GrewPartly (P.held to.old) (P.held to.new) (gathered.now ++ message_end ∷ [])) }
    ensures answers { Answers IsOfSending result }
    ensures unwritten { Unwritten result (P.faults to.old) (P.faults to.new) }
    ensures counted { P.faults to.old ≤ P.faults to.new }
{
    if fill(room, gathered).is_err() {
        return Err(LiveStatus::Memory);
    }
    if write_all(to, room.as_slice()).is_err() {
        return Err(LiveStatus::WriteFault);
    }
    Ok(())
}

/// How a run ends where a step of an end failed.
pub(crate) fn failed(fault: EndFault) -> LiveStatus
    ensures { result ≡ failed_of fault }
{
    match fault {
        EndFault::Write => LiveStatus::WriteFault,
        EndFault::Memory => LiveStatus::Memory,
    }
}
