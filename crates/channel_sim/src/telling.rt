//! Telling a listener what an end did.

ghost use Rattle.std.specs.Prelude.{◌≡◌, ◌≤◌, OnOk, OnErr, IfErr};
ghost use Rattle.channel_sim.specs.SimFault.{CountsFaults};
ghost use Rattle.trace_model.specs.History.{told};

use crate::fault::SimFault;
use link_frames::Note;
use std::alloc::Global;
use trace_model::Listener;

/// Tells a listener these items, each as an entry at this tick.
pub(crate) fn tell<H: Listener>(
    alloc: Global,
    tick: u64,
    items: &[Note],
    to: &mut H,
) -> Result<(), SimFault>
    ensures ok { OnOk result (H.grew to.old to.new (told tick items.now)) }
    ensures err { OnErr result (H.partly to.old to.new (told tick items.now)) }
    ensures faults { CountsFaults result (H.faults to.old) (H.faults to.new) }
{
    trace_fit::tell(alloc, tick, items, to)?;
    Ok(())
}
