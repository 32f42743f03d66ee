//! Telling a listener what an end did.

ghost use Rattle.std.specs.Prelude.{◌≡◌, ◌≤◌, OnOk, OnErr, IfErr};
ghost use Rattle.trace_model.specs.History.{told};
ghost use Rattle.trace_model.specs.Listener.{DeafCause};

use link_frames::Note;
use std::alloc::Global;
use trace_model::{Deaf, Listener};

/// Tells a listener these items, each as an entry at this tick, in ticks of 100 ms.
pub fn tell<H: Listener>(alloc: Global, tick: u64, items: &[Note], to: &mut H) -> Result<(), Deaf>
    ensures ok { OnOk result (H.grew to.old to.new (told tick items.now)) }
    ensures err { OnErr result (H.partly to.old to.new (told tick items.now)) }
    ensures stood { OnOk result (H.faults to.new ≡ H.faults to.old) }
    ensures cause { IfErr result (λ e. DeafCause e (H.faults to.old) (H.faults to.new)) }
    ensures counted { H.faults to.old ≤ H.faults to.new }
{
    for note in items {
        to.hear_item(alloc, tick, note)?;
    }
    Ok(())
}
